//! Buffers go back that came back early before, or that failed; whether they may.
ghost use Rattle.std.specs.Prelude.{◌≡◌, ◌↔◌, None, Some, IfSome, IsNone, IsSome, IsTrue};
ghost use Rattle.std.specs.List.{list_all};
ghost use Rattle.device_rows.specs.Kept.{have_made_fences};
ghost use Rattle.device_rows.specs.Ready.{is_failed_return_ready, is_finish_ready};
ghost use Rattle.device_rows.specs.Rows.{delivered, returned_failed, row_at, with_row};
ghost use Rattle.device_core.specs.Steps.{IsBackAt, ShowsAt};
ghost use Rattle.device_core.specs.Stored.{specs_of};
ghost use Rattle.buffer_pool.specs.Fences.{made};
ghost use Rattle.device_core.specs.View.{with_rows};

use crate::device::Device;
use buffer_pool::{Fences, Parked};
use cam_types::{FrameNo, PixelBuf, StreamIx, TargetState};
use device_rows::{is_same_state, may_return_failed, target_at};

impl Device {
    /// Whether `finish` gives the buffer of a target.
    pub fn may_finish(&self, frame: FrameNo, stream: StreamIx) -> bool
        ensures { result ≡ is_finish_ready self.now.rows frame.0 stream.0 }
    {
        let Some(row) = self.store.view(frame) else {
            return false;
        };
        let Some(target) = target_at(row, stream) else {
            return false;
        };
        is_same_state(target.state, TargetState::EarlyFilled)
    }

    /// Whether `return_failed` gives the buffer of a target back.
    pub fn may_return_failed(&self, frame: FrameNo, stream: StreamIx) -> bool
        ensures { result ≡ is_failed_return_ready self.now.rows frame.0 stream.0 }
    {
        let Some(row) = self.store.view(frame) else {
            return false;
        };
        let Some(target) = target_at(row, stream) else {
            return false;
        };
        may_return_failed(row, target)
    }

    /// Gives the buffer of a target that came back early and is filled, with its picture's digest. None exactly where
    /// it isn't so.
    pub fn finish(&mut self, frame: FrameNo, stream: StreamIx) -> Option<(PixelBuf, [u8; 32])>
        ensures ready { IsSome result ↔ IsTrue (is_finish_ready self.old.rows frame.0 stream.0) }
        ensures picture { IfSome result
            (λ done. ShowsAt (specs_of self.old.plan) frame.0 stream.0 self.old.rows done.0 done.1) }
        ensures rows { IsSome result →
            self.new ≡ with_rows (with_row frame.0 (delivered stream) self.old.rows) self.old }
        ensures unchanged { IsNone result → self.new ≡ self.old }
    {
        if !self.may_finish(frame, stream) {
            return None;
        }
        Some(self.store.take_filled(frame, stream))
    }

    /// Gives a buffer back in error, with the waiter of its acquire fence where it waits and that isn't signalled;
    /// where it is signalled the waiter is redeemed. The fences of buffers that wait were made by these.
    pub fn return_failed(
        &mut self,
        frame: FrameNo,
        stream: StreamIx,
        fences: &mut Fences,
    ) -> Option<Parked>
        requires { IsTrue (list_all (have_made_fences (made fences.old)) self.old.rows) }
        ensures ready { IsSome result ↔ IsTrue (is_failed_return_ready self.old.rows frame.0 stream.0) }
        ensures parked { IfSome result
            (λ parked. IsBackAt fences.old (specs_of self.old.plan) frame.0 stream.0 self.old.rows parked) }
        ensures rows { IsSome result →
            self.new ≡ with_rows (with_row frame.0 (returned_failed stream) self.old.rows) self.old }
        ensures unchanged { IsNone result → self.new ≡ self.old }
        ensures fences { fences.new ≡ fences.old }
    {
        if !self.may_return_failed(frame, stream) {
            return None;
        }
        Some(self.store.take_failed(frame, stream, fences))
    }
}
