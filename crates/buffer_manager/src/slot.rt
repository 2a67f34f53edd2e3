//! What is kept for a buffer: where it is, and the buffer where the client has it.
ghost use Rattle.std.specs.Prelude.{◌≡◌, ◌<◌, IsTrue, Some, length, slice_get, slice_set, vec_capacity};
ghost use Rattle.trace_model.specs.Place.{Pool, is_at};
ghost use Rattle.buffer_manager.specs.Slots.{place_of};

use buffer_pool::{Signaller, Waiter};
use cam_types::{FenceNo, PixelBuf};
use std::mem::replace;

/// Where a buffer is. It can't be copied or let go.
pub enum Slot {
    /// In the pool of its stream, with the fence with which it came home.
    Home(Option<FenceNo>),
    /// At the device.
    Away,
    /// At the client, which got it with its picture.
    Filled(PixelBuf),
    /// At the client, which got it before its picture: the device fence says when this is there.
    Early {
        signaller: Signaller,
        waiter: Waiter,
    },
    /// At the client, which got it before its picture: this is there now.
    Late {
        pixels: PixelBuf,
        waiter: Waiter,
    },
}

/// Puts something else into a slot, and gives what was there.
pub(crate) fn swap_slot(slots: &mut Vec<Slot>, place: usize, slot: Slot) -> Slot
    requires { place < length slots.old.items }
    ensures old { slice_get slots.old.items place ≡ Some result }
    ensures new { slots.new.items ≡ slice_set slots.old.items place slot }
    ensures capacity { vec_capacity slots.new ≡ vec_capacity slots.old }
{
    replace(&mut slots[place], slot)
}

/// Ends the slot of a buffer that was away.
pub(crate) fn end_away(slot: Slot)
    requires { slot ≡ Slot.Away }
{
    match slot {
        Slot::Away => {}
        _other => unreachable!(),
    }
}

/// The fence of a buffer at home.
pub(crate) fn take_home(slot: Slot) -> Option<FenceNo>
    requires { IsTrue (is_at (place_of slot) Pool) }
    ensures { slot ≡ Slot.Home result }
{
    match slot {
        Slot::Home(fence) => fence,
        Slot::Away => unreachable!(),
        Slot::Filled(_pixels) => unreachable!(),
        Slot::Early {
            signaller: _signaller,
            waiter: _waiter,
        } => unreachable!(),
        Slot::Late {
            pixels: _pixels,
            waiter: _waiter,
        } => unreachable!(),
    }
}
