//! Whose turn it is among the rows: whose buffers and metadata may come, and which frame the sensor takes next.

ghost use Rattle.std.specs.Prelude.{◌≡◌, ◌&&◌, Bool, None, Some, is_some, not, IfSome, IsTrue};
ghost use Rattle.cam_types.specs.declared.row.RowView.{RowView as ARow};
ghost use Rattle.device_rows.specs.Order.{each_below, holds_back};
ghost use Rattle.device_rows.specs.Ready.{may_end_metadata, next_exposure};
ghost use Rattle.device_rows.specs.Rows.{row_at};
ghost use Rattle.device_core.specs.Stored.{find_view, frame_number, rises, views};

use crate::buffers::Held;
use crate::store::Store;
use cam_types::{FrameNo, RowView, StreamIx};
use device_rows::{Table, holds_back};

impl Store {
    /// Whether a filled buffer of the frame may come back for the stream: no earlier frame holds the stream back.
    pub fn may_come(&self, frame: FrameNo, stream: StreamIx) -> bool
        ensures { result ≡ each_below frame.0 (λ row. not (holds_back stream.0 row)) self.now.rows }
    {
        each_below(&self.table, frame, |row| !holds_back(stream, row))
    }

    /// Whether the metadata of the frame may end: that of each earlier frame has ended.
    pub fn may_end_metadata(&self, frame: FrameNo) -> bool
        ensures { result ≡ may_end_metadata self.now.rows frame.0 }
    {
        each_below(&self.table, frame, |row| !row.awaits_metadata())
    }

    /// The row of the frame that the sensor takes next: the first without a shutter that didn't fail whole. It is the
    /// row that its frame finds.
    pub fn next_exposure(&self) -> Option<RowView>
        ensures next { result ≡ next_exposure self.now.rows }
        ensures found { IfSome result (λ row. row_at row.frame.0 self.now.rows ≡ Some row) }
    {
        next_exposure(&self.table)
    }
}

/// Whether each row of an earlier frame passes the test. It looks at the rows from the oldest on, and at none behind the
/// first that isn't earlier or doesn't pass.
fn each_below<F: Fn(RowView) -> bool>(table: &Table<Held>, frame: FrameNo, passes: F) -> bool
    requires callable { F.IsAlwaysCallable passes }
    requires order { IsTrue (rises frame_number (views table.now.rows)) }
    ensures { (test : ARow → Bool) → ((row : ARow) (answer : Bool) → F.post passes row answer → answer ≡ test row)
        → result ≡ each_below frame.0 test (views table.now.rows) }
{
    for place in 0..table.len() {
        if let Some(row) = table.at(place) {
            if row.frame.0 >= frame.0 {
                return true;
            }
            if !passes(row) {
                return false;
            }
        }
    }
    true
}

/// Whether the frame has no shutter and didn't fail whole.
fn is_unexposed(row: RowView) -> bool
    ensures { result ≡ (not (is_some row.shutter) && not row.request_error) }
{
    row.shutter.is_none() && !row.request_error
}

fn next_exposure(table: &Table<Held>) -> Option<RowView>
    ensures next { result ≡ next_exposure (views table.now.rows) }
    ensures found { IfSome result (λ row. find_view row.frame.0 table.now.rows ≡ Some row) }
{
    for place in 0..table.len() {
        if let Some(row) = table.at(place) {
            if is_unexposed(row) {
                return Some(row);
            }
        }
    }
    None
}
