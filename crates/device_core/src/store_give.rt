//! Buffers leave the store: filled, early or failed.
ghost use Rattle.std.specs.Prelude.{◌≡◌, ◌<◌, None, Some, true, IfSome, IsTrue};
ghost use Rattle.std.specs.Option.{option_and_then, option_map};
ghost use Rattle.buffer_pool.specs.Fences.{is_signalled, made};
ghost use Rattle.device_rows.specs.Kept.{has_made_fence};
ghost use Rattle.device_rows.specs.Ready.{may_return_failed, target_passes};
ghost use Rattle.device_rows.specs.Rows.{delivered, gone_early, returned_failed, row_at, target_in, with_row};
ghost use Rattle.device_core.specs.Steps.{has_made, is_filled, is_in_fill, IsBackAt, ShowsAt};
ghost use Rattle.device_core.specs.Stored.{specs_of, with_rows};
ghost use Rattle.device_core.specs.Unpacked.{IsMadeHeld, IsUnpacked};

use crate::buffers::Held;
use crate::store::Store;
use crate::store_fill::redeem;
use buffer_pool::{Fences, Parked};
use cam_types::{BufferId, FrameNo, PixelBuf, StreamIx, TargetState};
use device_rows::{Mark, target_at};

impl Store {
    /// Gives a buffer that shows its picture, with the digest.
    pub fn take_filled(&mut self, frame: FrameNo, stream: StreamIx) -> (PixelBuf, [u8; 32])
        requires { IsTrue (target_passes is_filled stream.0 (row_at frame.0 self.old.rows)) }
        ensures picture { ShowsAt (specs_of self.old.plan) frame.0 stream.0 self.old.rows result.0 result.1 }
        ensures rows { self.new ≡ with_rows (with_row frame.0 (delivered stream) self.old.rows) self.old }
    {
        let filled = match self.table.take_target(frame, stream) {
            Some(Held::Filled(filled)) => filled,
            Some(Held::Waiting(_other)) => unreachable!(),
            None => unreachable!(),
        };
        let _ = self
            .table
            .mark(frame, Mark::Target(stream, TargetState::ReturnedOk));
        filled.into_parts()
    }

    /// Notes that a buffer came back while a stage fills it, and gives its number.
    pub fn note_early(&mut self, frame: FrameNo, stream: StreamIx) -> BufferId
        requires { IsTrue (target_passes is_in_fill stream.0 (row_at frame.0 self.old.rows)) }
        ensures buffer { option_map (λ target. target.buffer) (target_in frame.0 stream.0 self.old.rows) ≡ Some result }
        ensures rows { self.new ≡ with_rows (with_row frame.0 (gone_early stream) self.old.rows) self.old }
    {
        let Some(row) = self.table.view(frame) else {
            unreachable!();
        };
        let Some(target) = target_at(row, stream) else {
            unreachable!();
        };
        let _ = self
            .table
            .mark(frame, Mark::Target(stream, TargetState::ReturnedEarly));
        target.buffer
    }

    /// Gives a buffer back that failed. Its waiter comes with it where its fence isn't signalled, and is redeemed where
    /// it is.
    pub fn take_failed(&mut self, frame: FrameNo, stream: StreamIx, fences: &mut Fences) -> Parked
        requires failed { IsTrue (target_passes may_return_failed stream.0 (row_at frame.0 self.old.rows)) }
        requires made { IsTrue (target_passes (has_made (made fences.old)) stream.0 (row_at frame.0 self.old.rows)) }
        ensures parked { IsBackAt fences.old (specs_of self.old.plan) frame.0 stream.0 self.old.rows result }
        ensures rows { self.new ≡ with_rows (with_row frame.0 (returned_failed stream) self.old.rows) self.old }
        ensures fences { fences.new ≡ fences.old }
    {
        let Some(held) = self.table.take_target(frame, stream) else {
            unreachable!();
        };
        let _ = self
            .table
            .mark(frame, Mark::Target(stream, TargetState::ReturnedFailed));
        unpack(held, fences)
    }
}

/// A buffer as it goes back: its waiter is redeemed where its fence is signalled.
fn unpack(held: Held, fences: &mut Fences) -> Parked
    requires { IsMadeHeld (made fences.old) held }
    ensures parked { IsUnpacked fences.old held result }
    ensures fences { fences.new ≡ fences.old }
{
    match held {
        Held::Waiting(waiting) => {
            let Parked { pixels, waiter } = waiting.into_parked();
            Parked {
                pixels,
                waiter: redeem(waiter, fences),
            }
        }
        Held::Filled(filled) => {
            let (pixels, _) = filled.into_parts();
            Parked {
                pixels,
                waiter: None,
            }
        }
    }
}
