//! Where the row of a frame stands, and the readout beside it.
ghost use Rattle.std.specs.Prelude.{◌≡◌, ◌<◌, IsTrue, Some, is_some, length, slice_get, slice_set, vec_capacity};
ghost use Rattle.std.specs.Option.{option_map};
ghost use Rattle.device_rows.specs.Rows.{row_at, target_at, target_in};
ghost use Rattle.device_core.specs.Stored.{views};
ghost use Rattle.device_rows.specs.TableRows.{view_of};

use crate::buffers::Held;
use crate::readouts::Slot;
use cam_types::{FrameNo, RowView, StreamIx, TargetView};
use device_rows::{Table, target_at};
use std::mem::replace;

/// The place of the row of a frame whose row stands, and the row.
pub(crate) fn find_row(table: &Table<Held>, frame: FrameNo) -> (usize, RowView)
    requires { IsTrue (is_some (row_at frame.0 (views table.now.rows))) }
    ensures found { row_at frame.0 (views table.now.rows) ≡ Some result.1 }
    ensures placed { option_map view_of (slice_get table.now.rows result.0) ≡ Some result.1 }
    ensures own { result.1.frame.0 ≡ frame.0 }
{
    for place in 0..table.len() {
        if let Some(row) = table.at(place) {
            if row.frame.0 == frame.0 {
                return (place as usize, row);
            }
        }
    }
    unreachable!()
}

/// The place of the row of a frame that has a target for the stream, the row, and the target.
pub(crate) fn find_target(
    table: &Table<Held>,
    frame: FrameNo,
    stream: StreamIx,
) -> (usize, RowView, TargetView)
    requires { IsTrue (is_some (target_in frame.0 stream.0 (views table.now.rows))) }
    ensures found { row_at frame.0 (views table.now.rows) ≡ Some result.1 }
    ensures has { target_at stream.0 result.1 ≡ Some result.2 }
    ensures placed { option_map view_of (slice_get table.now.rows result.0) ≡ Some result.1 }
    ensures own { result.1.frame.0 ≡ frame.0 }
{
    let (place, row) = find_row(table, frame);
    match target_at(row, stream) {
        Some(target) => (place, row, target),
        None => unreachable!(),
    }
}

/// Puts something else into a slot, and gives what was there.
pub(crate) fn swap_slot(slots: &mut Vec<Slot>, place: usize, slot: Slot) -> Slot
    requires { place < length slots.old.items }
    ensures old { slice_get slots.old.items place ≡ Some result }
    ensures new { slots.new.items ≡ slice_set slots.old.items place slot }
    ensures capacity { vec_capacity slots.new ≡ vec_capacity slots.old }
{
    replace(&mut slots[place], slot)
}
