//! Buffers come home from the client.
ghost use Rattle.std.specs.Prelude.{◌≡◌, ◌<◌, None, Some, IsTrue};
ghost use Rattle.std.specs.List.{position_from};
ghost use Rattle.buffer_pool.specs.Fences.{is_signalled, made};
ghost use Rattle.trace_model.specs.Configuration.{is_made};
ghost use Rattle.trace_model.specs.Place.{Pool};
ghost use Rattle.buffer_manager.specs.Managed.{fence_from, may_be_released, moved};
ghost use Rattle.buffer_manager.specs.Slots.{has_picture, is_timely, pixels_of};

use crate::manager::BufferManager;
use crate::slot::{Slot, swap_slot};
use crate::stream::{Stream, give_to};
use buffer_pool::{Fences, Parked, Waiter};
use cam_types::{BufferId, FenceNo, PixelBuf};

impl BufferManager {
    /// Takes a buffer back from the client, with the waiter of the fence that says when the client is done with it.
    pub fn release(&mut self, buffer: BufferId, waiter: Waiter)
        requires may { IsTrue (may_be_released self.old buffer.0) }
        ensures { self.new ≡ moved buffer.0 Pool (fence_from (Some waiter)) None None self.old }
    {
        let Some(stream) = stream_of(&self.streams, buffer) else {
            unreachable!();
        };
        let place = (buffer.0 - self.first) as usize;
        let home = Slot::Home(Some(FenceNo(waiter.number())));
        let slot = swap_slot(&mut self.slots, place, home);
        let parked = Parked {
            pixels: take_pixels(slot, &mut self.late),
            waiter: Some(waiter),
        };
        give_to(&mut self.streams, stream, parked);
    }
}

/// The stream of a buffer.
fn stream_of(streams: &[Stream], buffer: BufferId) -> Option<usize>
    ensures { result ≡ position_from (λ s. is_made buffer.0 s.made) 0 streams.now }
{
    streams.iter().position(|stream| is_of(stream, buffer))
}

fn is_of(stream: &Stream, buffer: BufferId) -> bool
    ensures { result ≡ is_made buffer.0 stream.now.made }
{
    stream.made.first.0 <= buffer.0 && buffer.0 - stream.made.first.0 < stream.made.count
}

/// The buffer that the client has with its picture. The waiter of its device fence, if it has one, is redeemed.
fn take_pixels(slot: Slot, late: &mut Fences) -> PixelBuf
    requires picture { IsTrue (has_picture slot) }
    requires timely { IsTrue (is_timely late.old.signalled slot) }
    ensures pixels { pixels_of slot ≡ Some result }
    ensures late { late.new ≡ late.old }
{
    match slot {
        Slot::Filled(pixels) => pixels,
        Slot::Late { pixels, waiter } => {
            redeem(waiter, late);
            pixels
        }
        Slot::Home(_) => unreachable!(),
        Slot::Away => unreachable!(),
        Slot::Early {
            signaller: _signaller,
            waiter: _waiter,
        } => unreachable!(),
    }
}

/// Redeems the waiter of a fence that is signalled.
fn redeem(waiter: Waiter, fences: &mut Fences)
    requires made { waiter < made fences.old }
    requires signalled { IsTrue (is_signalled waiter fences.old) }
    ensures { fences.new ≡ fences.old }
{
    match fences.redeem(waiter) {
        Ok(_number) => {}
        Err(_waiter) => unreachable!(),
    }
}
