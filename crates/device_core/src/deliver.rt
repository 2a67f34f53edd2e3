//! Filled buffers that come back, and buffers that come back early; whether they may.

ghost use Rattle.std.specs.Prelude.{◌≡◌, ◌↔◌, ◌&&◌, None, Some, IfSome, IsNone, IsSome, IsTrue};
ghost use Rattle.std.specs.Option.{option_map};
ghost use Rattle.device_rows.specs.Ready.{is_delivery_ready, is_early_ready, is_same_state, may_return, target_passes};
ghost use Rattle.device_rows.specs.Rows.{delivered, gone_early, row_at, target_in, with_row};
ghost use Rattle.device_core.specs.Steps.{ShowsAt};
ghost use Rattle.device_core.specs.Stored.{specs_of};
ghost use Rattle.device_core.specs.View.{with_rows};

use crate::Store;
use crate::device::Device;
use cam_types::{BufferId, Fault, FrameNo, PixelBuf, RowView, StreamIx, TargetState, TargetView};
use device_rows::{is_same_state, is_sound, target_at};

impl Device {
    /// Whether `deliver` gives the buffer of a target.
    pub fn may_deliver(&self, frame: FrameNo, stream: StreamIx) -> bool
        ensures { result ≡ is_delivery_ready self.now.faults self.now.rows frame.0 stream.0 }
    {
        self.may_come_from(TargetState::Filled, frame, stream)
    }

    /// Whether `early` lets the buffer of a target come back.
    pub fn may_come_early(&self, frame: FrameNo, stream: StreamIx) -> bool
        ensures { result ≡ is_early_ready self.now.faults self.now.rows frame.0 stream.0 }
    {
        self.may_come_from(TargetState::Out, frame, stream)
    }

    /// Gives the filled buffer of a target, with its picture's digest. None exactly where it isn't filled, it or its
    /// frame failed or will, or an earlier frame holds the stream back.
    pub fn deliver(&mut self, frame: FrameNo, stream: StreamIx) -> Option<(PixelBuf, [u8; 32])>
        ensures ready { IsSome result ↔ IsTrue (is_delivery_ready self.old.faults self.old.rows frame.0 stream.0) }
        ensures picture { IfSome result
            (λ done. ShowsAt (specs_of self.old.plan) frame.0 stream.0 self.old.rows done.0 done.1) }
        ensures rows { IsSome result →
            self.new ≡ with_rows (with_row frame.0 (delivered stream) self.old.rows) self.old }
        ensures unchanged { IsNone result → self.new ≡ self.old }
    {
        if !self.may_deliver(frame, stream) {
            return None;
        }
        Some(self.store.take_filled(frame, stream))
    }

    /// Lets the buffer of a target come back early, while a stage fills it, and gives its number. None exactly where no
    /// stage fills it or it is back, it or its frame failed or will, or an earlier frame holds the stream back.
    pub fn early(&mut self, frame: FrameNo, stream: StreamIx) -> Option<BufferId>
        ensures ready { IsSome result ↔ IsTrue (is_early_ready self.old.faults self.old.rows frame.0 stream.0) }
        ensures buffer { IfSome result
            (λ buffer. option_map (λ target. target.buffer) (target_in frame.0 stream.0 self.old.rows) ≡ Some buffer) }
        ensures rows { IsSome result →
            self.new ≡ with_rows (with_row frame.0 (gone_early stream) self.old.rows) self.old }
        ensures unchanged { IsNone result → self.new ≡ self.old }
    {
        if !self.may_come_early(frame, stream) {
            return None;
        }
        Some(self.store.note_early(frame, stream))
    }

    /// Whether a target is in the state, and its buffer may come back with its picture, or early.
    fn may_come_from(&self, state: TargetState, frame: FrameNo, stream: StreamIx) -> bool
        ensures { result ≡ target_passes
            (λ row target. is_same_state target.state state && may_return self.now.faults self.now.rows row target)
            stream.0 (row_at frame.0 self.now.rows) }
    {
        let Some(row) = self.store.view(frame) else {
            return false;
        };
        let Some(target) = target_at(row, stream) else {
            return false;
        };
        is_same_state(target.state, state)
            && may_return(&self.store, self.faults.as_slice(), row, target)
    }
}

/// Whether the target's buffer may come back with its picture, or early.
fn may_return(store: &Store, faults: &[Fault], row: RowView, target: TargetView) -> bool
    ensures { result ≡ may_return faults.now store.now.rows row target }
{
    (is_sound(faults, row, target) && row.shutter.is_some())
        && store.may_come(row.frame, target.stream)
}
