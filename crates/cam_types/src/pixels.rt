//! A buffer of pixels, owned by one place at a time.
ghost use Rattle.std.specs.Prelude.{◌≡◌, ◌≤◌, length, take};
ghost use Rattle.std.specs.Borrow.{sem};
ghost use Rattle.cam_types.specs.Pixels.{LendsBytes};

use crate::number::BufferId;
use std::marker::Model;

/// A picture's buffer: a block of memory, of which the first bytes show. It is owned by one place at a time, never
/// copied, and ends by `into_block` alone.
pub struct PixelBuf {
    block: Vec<u8>,
    id: BufferId,
    used: u32,
}

impl Model for PixelBuf {
    ghost use Rattle.std.specs.Prelude.{length, take, ◌≤◌};
    ghost use Rattle.cam_types.specs.Shown.{Shown};

    ghost Value = { Shown };

    ghost view = { λ p. record { id = p.id; bytes = take p.used p.block.items; block = length p.block.items } };

    ghost invariant = { λ p. p.used ≤ length p.block.items };
}

impl PixelBuf {
    /// A buffer that shows the first `used` bytes of the block.
    pub fn over(block: Vec<u8>, id: BufferId, used: u32) -> PixelBuf
        requires { used ≤ length block.items }
        ensures { result ≡ record { id = id; bytes = take used block.items; block = length block.items } }
    {
        PixelBuf { block, id, used }
    }

    /// The buffer's number.
    pub fn id(&self) -> BufferId
        ensures { result ≡ self.now.id }
    {
        self.id
    }

    /// The bytes that show.
    pub fn bytes(&self) -> &[u8]
        ensures { result.now ≡ self.now.bytes }
    {
        &self.block[..self.used as usize]
    }

    /// The bytes that show, for writing.
    pub fn bytes_mut(&mut self) -> &mut [u8]
        ensures* writes_back { sem 𝓛 (LendsBytes self.entry result) }
        ensures value { result.now ≡ self.old.bytes }
    {
        let used = self.used as usize;
        self.block.slice_mut(..used)
    }

    /// The whole block back.
    pub fn into_block(self) -> Vec<u8>
        ensures whole { length result.items ≡ self.block }
        ensures shown { take (length self.bytes) result.items ≡ self.bytes }
    {
        let PixelBuf {
            block,
            id: _,
            used: _,
        } = self;
        block
    }
}
