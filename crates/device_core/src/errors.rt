//! The errors that are due.

ghost use Rattle.std.specs.Prelude.{◌≡◌, Some, IfSome, IsNone};
ghost use Rattle.device_rows.specs.Ready.{error_of, fails_device_at, is_failing, next_error};
ghost use Rattle.device_rows.specs.Rows.{with_error};
ghost use Rattle.device_core.specs.View.{with_rows};

use crate::Store;
use crate::device::Device;
use cam_types::{Fault, FrameNo, RowVerdict, RowView};
use device_rows::{ErrorEntry, faults_of, has_device_fault, next_error, verdict};

impl Device {
    /// The error that `fail_next` tells of a frame. None exactly where none is due.
    pub fn error_due(&self, frame: FrameNo) -> Option<ErrorEntry>
        ensures { result ≡ next_error self.now.faults self.now.rows frame.0 }
    {
        error_at(&self.store, self.faults.as_slice(), frame)
    }

    /// Tells the error that is due at a frame: the device's failure where it shall fail there, else the next that the
    /// frame's verdict names. None exactly where none is due.
    pub fn fail_next(&mut self, frame: FrameNo) -> Option<ErrorEntry>
        ensures error { result ≡ next_error self.old.faults self.old.rows frame.0 }
        ensures rows { IfSome result (λ error. self.new ≡ with_rows (with_error error self.old.rows) self.old) }
        ensures unchanged { IsNone result → self.new ≡ self.old }
    {
        let error = self.error_due(frame)?;
        self.store.note_error(error);
        Some(error)
    }
}

/// The error that is due at a frame.
fn error_at(store: &Store, faults: &[Fault], frame: FrameNo) -> Option<ErrorEntry>
    ensures { result ≡ next_error faults.now store.now.rows frame.0 }
{
    if fails_device_at(store, faults, frame) {
        return Some(ErrorEntry::Device);
    }
    let row = store.view(frame)?;
    error_of(store, faults, row)
}

/// Whether the device fails at the frame: its exposure would begin, it wasn't stopped, and the device shall fail there.
fn fails_device_at(store: &Store, faults: &[Fault], frame: FrameNo) -> bool
    ensures { result ≡ fails_device_at faults.now store.now.rows frame.0 }
{
    match store.next_exposure() {
        Some(row) => row.frame.0 == frame.0 && (!row.stopped && has_device_fault(faults, frame)),
        None => false,
    }
}

/// The next error that the row's verdict names. The other rows are asked only where it names the metadata, whose error
/// alone waits for its turn.
fn error_of(store: &Store, faults: &[Fault], row: RowView) -> Option<ErrorEntry>
    ensures { result ≡ error_of faults.now store.now.rows (Some row) }
{
    let due = verdict(row, faults_of(faults, row));
    let may_end = match due {
        RowVerdict::Parts { result: true, .. } => store.may_end_metadata(row.frame),
        _ => false,
    };
    next_error(row, due, may_end)
}
