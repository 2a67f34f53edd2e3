//! A buffer at rest, with the waiter of its fence.
ghost use Rattle.std.specs.Prelude.{◌≡◌, ◌<◌, length, IfSome, IsTrue};
ghost use Rattle.buffer_pool.specs.Fences.{made};
ghost use Rattle.buffer_pool.specs.Parked.{has_made_waiter};

use crate::{Fences, Waiter};
use cam_types::PixelBuf;

/// A buffer that no one uses, with the waiter of the fence that must be signalled before it is written, if there is
/// one. It can't be copied or let go.
pub struct Parked {
    pub pixels: PixelBuf,
    pub waiter: Option<Waiter>,
}

impl Parked {
    /// Spends the waiter, and gives the buffer's block.
    pub fn into_block(self, fences: &mut Fences) -> Vec<u8>
        requires { IsTrue (has_made_waiter (made fences.old) self) }
        ensures block { length result.items ≡ self.pixels.block }
        ensures fences { fences.new ≡ fences.old }
    {
        let Parked { pixels, waiter } = self;
        scrap(waiter, fences);
        pixels.into_block()
    }
}

fn scrap(waiter: Option<Waiter>, fences: &mut Fences)
    requires { IfSome waiter (λ w. w < made fences.old) }
    ensures { fences.new ≡ fences.old }
{
    match waiter {
        Some(waiter) => fences.scrap_waiter(waiter),
        None => {}
    }
}
