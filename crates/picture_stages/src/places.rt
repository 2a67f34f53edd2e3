//! Where digests stand: a table of hints that takes its memory once, and in which a key has few places.
ghost use Rattle.std.specs.Prelude.{◌≡◌, ◌+◌, ◌≤◌, ◌<◌, IfSome, length};

use crate::key::PictureKey;
use cam_types::NoMemory;
use std::alloc::Global;
use std::hash::{BuildHasher, BuildHasherDefault, FoldHasher, Hash};

/// So many places a key may stand at, one after another. Half the places and more stay free, so that is plenty.
pub const TRIES: usize = 64;

/// The hint of a place that is free: no digest stands there.
const FREE: u16 = u16::MAX;

/// For each place, which of the digests stands there. A hint alone: a wrong one is found out by the key that stands with
/// the digest.
#[derive(Drop)]
pub(crate) struct Places {
    hints: Vec<u16>,
}

impl Places {
    /// Free places for so many digests.
    pub(crate) fn with_room(alloc: Global, digests: usize) -> Result<Places, NoMemory>
        requires { digests ≤ 16384 }
    {
        Ok(Places {
            hints: vec![in alloc; FREE; 2 * digests + TRIES]?,
        })
    }

    /// The hints of the places at which the key may stand.
    pub(crate) fn hints_of(&self, key: PictureKey) -> &[u16] {
        let (first, end) = tries_of(&key, self.hints.len());
        &self.hints[first..end]
    }

    /// Gives the key's first free place to a digest. Nothing is done where none is free.
    pub(crate) fn put(&mut self, key: PictureKey, digest: u16) {
        let (first, end) = tries_of(&key, self.hints.len());
        if let Some(free) = free_place(&self.hints[first..end]) {
            self.hints[first + free] = digest;
        }
    }
}

/// The first of the places at which the key may stand, of so many in all, and the one behind the last.
pub fn tries_of<K: Hash>(key: &K, places: usize) -> (usize, usize)
    ensures order { result.0 ≤ result.1 }
    ensures within { result.1 ≤ places }
{
    let firsts = places.saturating_sub(TRIES) + 1;
    let hash = BuildHasherDefault::<FoldHasher>::new().hash_one(key);
    let first = (hash % firsts as u64) as usize;
    (first, first + TRIES.min(places - first))
}

/// The first place that is free.
fn free_place(hints: &[u16]) -> Option<usize>
    ensures { IfSome result (λ place. place < length hints.now) }
{
    hints.iter().position(|hint| *hint == FREE)
}
