//! A stage takes a buffer; whether it may, and whether it has one.
ghost use Rattle.std.specs.Prelude.{◌≡◌, ◌↔◌, None, Some, IfSome, IsNone, IsSome, IsTrue};
ghost use Rattle.std.specs.List.{list_all};
ghost use Rattle.device_rows.specs.Kept.{have_made_fences};
ghost use Rattle.device_rows.specs.Jobs.{is_fill_out};
ghost use Rattle.device_rows.specs.Ready.{is_fill_ready, is_passed, may_fill, target_passes};
ghost use Rattle.device_rows.specs.Rows.{fill_begun, row_at, with_row};
ghost use Rattle.device_core.specs.Steps.{fill_job_for};
ghost use Rattle.device_core.specs.Stored.{specs_of};
ghost use Rattle.buffer_pool.specs.Fences.{is_signalled, made};
ghost use Rattle.device_core.specs.View.{with_rows};

use crate::device::Device;
use buffer_pool::Fences;
use cam_types::{Fault, FenceNo, FrameNo, RowView, StreamIx, TargetState, TargetView};
use device_rows::{is_home, is_same_state, is_sound, target_at};
use fill_jobs::FillJob;

impl Device {
    /// Whether `take_fill` gives the job of filling a target's buffer.
    pub fn may_take_fill(&self, frame: FrameNo, stream: StreamIx, fences: &Fences) -> bool
        ensures { result ≡
            is_fill_ready self.now.faults (λ f. is_signalled f fences.now) self.now.rows frame.0 stream.0 }
    {
        let Some(row) = self.store.view(frame) else {
            return false;
        };
        let Some(target) = target_at(row, stream) else {
            return false;
        };
        may_fill(self.faults.as_slice(), row, target, fences)
    }

    /// Whether a stage has a target's buffer.
    pub fn has_fill_job(&self, frame: FrameNo, stream: StreamIx) -> bool
        ensures { result ≡ target_passes (λ row target. is_fill_out target.state) stream.0 (row_at frame.0 self.now.rows) }
    {
        let Some(row) = self.store.view(frame) else {
            return false;
        };
        let Some(target) = target_at(row, stream) else {
            return false;
        };
        matches!(target.state, TargetState::Out | TargetState::ReturnedEarly)
    }

    /// Gives a stage the job of filling a target's buffer, with the frame's readout. None exactly where the buffer
    /// can't be taken: it or its frame failed or will, it doesn't wait, the readout isn't home, or its acquire fence
    /// isn't signalled. The fences of buffers that wait were made by these.
    pub fn take_fill(
        &mut self,
        frame: FrameNo,
        stream: StreamIx,
        fences: &mut Fences,
    ) -> Option<FillJob>
        requires { IsTrue (list_all (have_made_fences (made fences.old)) self.old.rows) }
        ensures ready { IsSome result ↔
            IsTrue (is_fill_ready self.old.faults (λ f. is_signalled f fences.old) self.old.rows frame.0 stream.0) }
        ensures job { IfSome result
            (λ job. fill_job_for (specs_of self.old.plan) stream.0 (row_at frame.0 self.old.rows) ≡ Some job) }
        ensures rows { IsSome result →
            self.new ≡ with_rows (with_row frame.0 (fill_begun stream) self.old.rows) self.old }
        ensures unchanged { IsNone result → self.new ≡ self.old }
        ensures fences { fences.new ≡ fences.old }
    {
        if !self.may_take_fill(frame, stream, fences) {
            return None;
        }
        Some(self.store.begin_fill(frame, stream, fences))
    }
}

/// Whether the acquire fence is none or signalled.
fn is_passed(fence: Option<FenceNo>, fences: &Fences) -> bool
    ensures { result ≡ is_passed (λ f. is_signalled f fences.now) fence }
{
    match fence {
        Some(fence) => fences.signalled(fence.0),
        None => true,
    }
}

/// Whether a stage may take the buffer.
fn may_fill(faults: &[Fault], row: RowView, target: TargetView, fences: &Fences) -> bool
    ensures { result ≡ may_fill faults.now (λ f. is_signalled f fences.now) row target }
{
    (is_sound(faults, row, target) && is_same_state(target.state, TargetState::Waiting))
        && (is_home(row.sensor) && is_passed(target.fence, fences))
}
