//! Buffers go to the client before their pictures, with device fences that say when these are there.
ghost use Rattle.std.specs.Prelude.{◌≡◌, ◌<◌, [], None, Some, IsTrue, is_some, length, slice_get};
ghost use Rattle.trace_model.specs.Place.{Client, Device, is_at};
ghost use Rattle.state_facts.specs.Homes.{held_in, place_in};
ghost use Rattle.buffer_manager.specs.Managed.{IsAwaited, IsBufferAt, IsOf, homes_with, moved, with_late, with_picture};
ghost use Rattle.buffer_manager.specs.Slots.{awaited_of};

use crate::manager::BufferManager;
use crate::slot::{Slot, end_away, swap_slot};
use buffer_pool::{Signaller, Waiter};
use cam_types::{BufferId, DeviceFenceNo, PixelBuf, StreamIx};

impl BufferManager {
    /// Lets a buffer of a stream go to the client early, and gives the device fence that says when its picture is
    /// there.
    pub fn deliver_early(&mut self, stream: StreamIx, buffer: BufferId) -> DeviceFenceNo
        requires own { IsOf self.old stream.0 buffer.0 }
        requires device { IsTrue (is_at (place_in (homes_with [] self.old) buffer.0) Device) }
        requires room { length self.old.late < self.old.room }
        ensures fence { result.0 ≡ length self.old.late }
        ensures moved { self.new ≡ with_late (moved buffer.0 Client None (Some result) None self.old) }
    {
        let place = (buffer.0 - self.first) as usize;
        let (signaller, waiter) = self.late.make_in();
        let fence = DeviceFenceNo(waiter.number());
        end_away(swap_slot(&mut self.slots, place, Slot::Early { signaller, waiter }));
        fence
    }

    /// Brings the picture of a buffer that went early, signals its device fence and gives the fence's number.
    pub fn finish(&mut self, stream: StreamIx, pixels: PixelBuf) -> DeviceFenceNo
        requires own { IsOf self.old stream.0 pixels.id.0 }
        requires whole { IsBufferAt (slice_get self.old.specs stream.0) pixels }
        requires client { IsTrue (is_at (place_in (homes_with [] self.old) pixels.id.0) Client) }
        requires awaited { IsAwaited self.old pixels.id.0 }
        ensures fence { held_in (homes_with [] self.old) pixels.id.0 ≡ Some result }
        ensures picture { self.new ≡ with_picture result.0 pixels.id.0 pixels.bytes self.old }
    {
        let place = (pixels.id().0 - self.first) as usize;
        let (signaller, waiter) = take_early(swap_slot(&mut self.slots, place, Slot::Away));
        end_away(swap_slot(&mut self.slots, place, Slot::Late { pixels, waiter }));
        DeviceFenceNo(self.late.signal(signaller))
    }
}

/// The ends of the device fence of a buffer whose picture isn't there.
fn take_early(slot: Slot) -> (Signaller, Waiter)
    requires { IsTrue (is_some (awaited_of slot)) }
    ensures { slot ≡ Slot.Early result.0 result.1 }
{
    match slot {
        Slot::Early { signaller, waiter } => (signaller, waiter),
        Slot::Home(_) => unreachable!(),
        Slot::Away => unreachable!(),
        Slot::Filled(_pixels) => unreachable!(),
        Slot::Late {
            pixels: _pixels,
            waiter: _waiter,
        } => unreachable!(),
    }
}
