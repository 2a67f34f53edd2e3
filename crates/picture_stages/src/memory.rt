//! The memory of digests.
ghost use Rattle.std.specs.Prelude.{◌≡◌, ◌+◌, ◌≤◌, IfOk, IfSome, IsTrue};
ghost use Rattle.std.specs.List.{All};
ghost use Rattle.cam_types.specs.Picture.{is_offered, picture};
ghost use Rattle.sha2.specs.Sha256.{sha256};
ghost use Rattle.picture_stages.specs.Keys.{picture_by};
ghost use Rattle.picture_stages.specs.Told.{IsTold};

use crate::key::{PictureKey, is_same_key, key_of};
use crate::places::Places;
use cam_types::{FrameNo, NoMemory, Settings, StreamSpec};
use std::alloc::Global;
use std::marker::Model;

/// How many digests are remembered at most. Further pictures are hashed again each time.
pub const REMEMBERED_LIMIT: usize = 16_384;

/// A picture's key, and its digest.
#[derive(Clone, Copy)]
pub(crate) struct Told {
    pub(crate) key: PictureKey,
    pub(crate) digest: [u8; 32],
}

/// Digests of pictures, in room that was taken at once. A contract sees how many digests it remembers.
#[derive(Drop)]
pub struct DigestMemory {
    told: Vec<Told>,
    places: Places,
}

impl Model for DigestMemory {
    ghost use Rattle.std.specs.Prelude.{ℕ, length};
    ghost use Rattle.picture_stages.specs.Told.{AreTold};

    ghost Value = { ℕ };

    ghost view = { λ m. length m.told.items };

    ghost invariant = { λ m. AreTold m.told.items };
}

impl DigestMemory {
    /// Nothing is remembered, and there is room for so many digests, or for `REMEMBERED_LIMIT` where more are asked for.
    /// All memory that it ever has is taken here.
    pub fn with_room(alloc: Global, digests: usize) -> Result<DigestMemory, NoMemory>
        ensures { IfOk result (λ m. m ≡ 0) }
    {
        let room = digests.min(REMEMBERED_LIMIT);
        Ok(DigestMemory {
            told: Vec::with_capacity(alloc, room)?,
            places: Places::with_room(alloc, room)?,
        })
    }

    /// How many digests are remembered.
    pub fn remembered(&self) -> usize
        ensures value { result ≡ self.now }
        ensures few { result ≤ REMEMBERED_LIMIT }
    {
        self.told.len()
    }

    /// The SHA-256 of the frame's picture for a stream whose format and size are offered, where it is remembered.
    pub fn find(&self, spec: StreamSpec, settings: Settings, frame: FrameNo) -> Option<[u8; 32]>
        requires offered { IsTrue (is_offered spec) }
        ensures { IfSome result (λ digest. digest ≡ sha256 (picture spec settings frame.0)) }
    {
        let key = key_of(spec, settings, frame);
        find_in(self.told.as_slice(), self.places.hints_of(key), key)
    }

    /// Remembers the SHA-256 of the frame's picture, where there is room for it. It takes no memory.
    pub fn remember(
        &mut self,
        spec: StreamSpec,
        settings: Settings,
        frame: FrameNo,
        digest: [u8; 32],
    )
        requires offered { IsTrue (is_offered spec) }
        requires digest { digest ≡ sha256 (picture spec settings frame.0) }
        ensures kept { self.old ≤ self.new }
        ensures more { self.new ≤ self.old + 1 }
    {
        let place = self.told.len();
        if place >= self.told.capacity().min(REMEMBERED_LIMIT) {
            return;
        }
        let key = key_of(spec, settings, frame);
        self.told.push_reserved(Told { key, digest });
        self.places.put(key, place as u16);
    }
}

/// Finds a key's digest among those that are told, at one of the places that the hints give.
fn find_in(told: &[Told], hints: &[u16], key: PictureKey) -> Option<[u8; 32]>
    requires { All IsTold told.now }
    ensures { IfSome result (λ digest. digest ≡ sha256 (picture_by key)) }
{
    for hint in hints {
        let found = told.get(*hint as usize)?;
        if is_same_key(found.key, key) {
            return Some(found.digest);
        }
    }
    None
}
