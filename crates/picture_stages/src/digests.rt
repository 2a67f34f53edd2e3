//! Digests of pictures that are remembered, or drawn where they aren't.
ghost use Rattle.std.specs.Prelude.{◌≡◌, ◌+◌, ◌≤◌, IfOk, None, IsTrue};
ghost use Rattle.cam_types.specs.Metadata.{range_fault};
ghost use Rattle.cam_types.specs.Picture.{is_offered, picture};
ghost use Rattle.sha2.specs.Sha256.{sha256};

use crate::canvas::Canvas;
use crate::{DigestMemory, REMEMBERED_LIMIT};
use cam_types::{FrameNo, NoMemory, Settings, StreamSpec};
use std::alloc::Global;
use std::marker::Model;

/// Digests of pictures, and what further ones are drawn with. A contract sees how many digests it remembers.
#[derive(Drop)]
pub struct PictureDigests {
    canvas: Canvas,
    memory: DigestMemory,
}

impl Model for PictureDigests {
    ghost use Rattle.std.specs.Prelude.{ℕ};

    ghost Value = { ℕ };

    ghost view = { λ d. d.memory };
}

impl PictureDigests {
    /// Nothing is remembered, and there is room for so many digests, or for `REMEMBERED_LIMIT` where more are asked for.
    /// All memory that it ever has is taken here: beside that room it is a readout and one picture.
    pub fn with_room(alloc: Global, digests: usize) -> Result<PictureDigests, NoMemory>
        ensures { IfOk result (λ d. d ≡ 0) }
    {
        Ok(PictureDigests {
            canvas: Canvas::new(alloc)?,
            memory: DigestMemory::with_room(alloc, digests)?,
        })
    }

    /// How many digests are remembered.
    pub fn remembered(&self) -> usize
        ensures value { result ≡ self.now }
        ensures few { result ≤ REMEMBERED_LIMIT }
    {
        self.memory.remembered()
    }

    /// The SHA-256 of the frame's picture for a stream whose format and size are offered, with the memory, which may
    /// remember it then: it is drawn where it isn't remembered.
    pub fn digest(
        self,
        spec: StreamSpec,
        settings: Settings,
        frame: FrameNo,
    ) -> ([u8; 32], PictureDigests)
        requires settings { range_fault settings ≡ None }
        requires offered { IsTrue (is_offered spec) }
        ensures digest { result.0 ≡ sha256 (picture spec settings frame.0) }
        ensures kept { self ≤ result.1 }
        ensures more { result.1 ≤ self + 1 }
    {
        if let Some(digest) = self.memory.find(spec, settings, frame) {
            return (digest, self);
        }
        let PictureDigests { canvas, mut memory } = self;
        let (digest, canvas) = canvas.digest(spec, settings, frame);
        memory.remember(spec, settings, frame, digest);
        (digest, PictureDigests { canvas, memory })
    }
}
