//! The partial results of a frame.

ghost use Rattle.std.specs.Prelude.{◌≡◌, IfSome, IsNone};
ghost use Rattle.device_rows.specs.Ready.{may_be_last, may_send_part, next_part};
ghost use Rattle.device_rows.specs.Rows.{with_part, with_row};
ghost use Rattle.device_core.specs.View.{with_rows};

use crate::Store;
use crate::device::Device;
use cam_types::{Fault, FrameNo, PartialResult, RowView};
use device_rows::{has_request_fault, has_result_fault};
use metadata::part;

impl Device {
    /// The partial result that `partial` gives of a frame. None exactly where it gives none.
    pub fn part_due(&self, frame: FrameNo) -> Option<(u8, PartialResult)>
        ensures { result ≡ next_part self.now.faults self.now.rows frame.0 }
    {
        let row = self.store.view(frame)?;
        let time = row.shutter?;
        if !may_send_part(&self.store, self.faults.as_slice(), row) {
            return None;
        }
        let number = row.parts + 1;
        Some((number, part(number, row.settings, time)))
    }

    /// Gives the next partial result of a frame: its number and its part. None exactly where it isn't exposed, its
    /// metadata has ended, it fails whole or will, or the part is the last and it shall lack it or the metadata of an
    /// earlier frame hasn't ended.
    pub fn partial(&mut self, frame: FrameNo) -> Option<(u8, PartialResult)>
        ensures part { result ≡ next_part self.old.faults self.old.rows frame.0 }
        ensures rows { IfSome result
            (λ sent. self.new ≡ with_rows (with_row frame.0 (with_part sent.0) self.old.rows) self.old) }
        ensures unchanged { IsNone result → self.new ≡ self.old }
    {
        let (number, part) = self.part_due(frame)?;
        self.store.note_part(frame, number);
        Some((number, part))
    }
}

/// Whether the last part of the row may be sent: its result has no fault, and the metadata of earlier frames has ended.
fn may_be_last(store: &Store, faults: &[Fault], row: RowView) -> bool
    ensures { result ≡ may_be_last faults.now store.now.rows row }
{
    !has_result_fault(faults, row.frame) && store.may_end_metadata(row.frame)
}

/// Whether the next part of the row may be sent.
fn may_send_part(store: &Store, faults: &[Fault], row: RowView) -> bool
    ensures { result ≡ may_send_part faults.now store.now.rows row }
{
    (row.awaits_metadata() && !has_request_fault(faults, row.frame))
        && (row.parts != 2 || may_be_last(store, faults, row))
}
