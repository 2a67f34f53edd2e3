//! Buffers come home, or go to the client.
ghost use Rattle.std.specs.Prelude.{◌≡◌, ◌<◌, [], None, Some, IfSome, IsTrue, true, length, slice_get};
ghost use Rattle.trace_model.specs.Place.{Client, Device, Pool, is_at};
ghost use Rattle.state_facts.specs.Homes.{place_in};
ghost use Rattle.buffer_manager.specs.Managed.{IsBufferAt, IsOf, fence_from, homes_with, moved};

use crate::manager::BufferManager;
use crate::slot::{Slot, end_away, swap_slot};
use crate::stream::give_to;
use buffer_pool::{Parked, Waiter};
use cam_types::{FenceNo, PixelBuf, StreamIx};

impl BufferManager {
    /// Gives a filled buffer of a stream to the client.
    pub fn deliver(&mut self, stream: StreamIx, pixels: PixelBuf)
        requires own { IsOf self.old stream.0 pixels.id.0 }
        requires whole { IsBufferAt (slice_get self.old.specs stream.0) pixels }
        requires device { IsTrue (is_at (place_in (homes_with [] self.old) pixels.id.0) Device) }
        ensures { self.new ≡ moved pixels.id.0 Client None None (Some pixels.bytes) self.old }
    {
        let place = (pixels.id().0 - self.first) as usize;
        end_away(swap_slot(&mut self.slots, place, Slot::Filled(pixels)));
    }

    /// Brings a buffer home that failed, with the waiter of its fence if it still has one.
    pub fn give_back(&mut self, stream: StreamIx, parked: Parked)
        requires own { IsOf self.old stream.0 parked.pixels.id.0 }
        requires whole { IsBufferAt (slice_get self.old.specs stream.0) parked.pixels }
        requires device { IsTrue (is_at (place_in (homes_with [] self.old) parked.pixels.id.0) Device) }
        ensures { self.new ≡ moved parked.pixels.id.0 Pool (fence_from parked.waiter) None None self.old }
    {
        let place = (parked.pixels.id().0 - self.first) as usize;
        let fence = fence_number(&parked.waiter);
        end_away(swap_slot(&mut self.slots, place, Slot::Home(fence)));
        give_to(&mut self.streams, stream.0 as usize, parked);
    }
}

/// The number of a waiter's fence.
fn fence_number(waiter: &Option<Waiter>) -> Option<FenceNo>
    ensures { result ≡ fence_from waiter.now }
{
    match waiter {
        Some(waiter) => Some(FenceNo(waiter.number())),
        None => None,
    }
}
