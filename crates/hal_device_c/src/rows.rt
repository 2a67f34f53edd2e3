//! What of the open frames is ready.
ghost use Rattle.std.specs.Prelude.{◌≡◌, Some};
ghost use Rattle.hal_device_c.specs.Calls.{answered, or_kept, row_error, row_told, told};

use crate::answer::{DONE, INVALID, NOT_OPEN};
use crate::handle::{Handle, Held};
use crate::records::{RowRecord, row_record};
use std::alloc::Global;

/// The open frame at a place, from 0 on in order of frames. EINVAL where so many frames aren't open.
#[unsafe(no_mangle)]
pub extern "C" fn pauvigre_row_at(
    alloc: Global,
    handle: &mut Handle,
    place: u32,
    row: &mut RowRecord,
) -> i32
    ensures answer { result ≡ answered (row_error place) handle.old.device }
    ensures row { row.new ≡ or_kept (told (row_told place) handle.old.device) row.old }
    ensures device { handle.new.device ≡ handle.old.device }
{
    let Some(held) = handle.take(alloc) else {
        return NOT_OPEN;
    };
    let answer = row_at(held.as_ref(), place, row);
    handle.put(alloc, held);
    answer
}

fn row_at(held: &Held, place: u32, row: &mut RowRecord) -> i32
    ensures answer { result ≡ answered (row_error place) (Some held.now) }
    ensures row { row.new ≡ or_kept (row_told place held.now) row.old }
{
    match held.device.ready(place) {
        Some(ready) => {
            *row = row_record(ready);
            DONE
        }
        None => INVALID,
    }
}
