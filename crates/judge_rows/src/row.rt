//! An open frame.
ghost use Rattle.std.specs.Prelude.{◌≡◌, IsTrue};
ghost use Rattle.std.specs.List.{list_all};
ghost use Rattle.trace_laws.specs.Times.{partials_after, note_time};
ghost use Rattle.state_facts.specs.FrameReadings.{has_something_row};
ghost use Rattle.state_facts.specs.Row.{is_ended, is_open_row, row_after, sent_row};
ghost use Rattle.judge_rows.specs.Views.{is_free, row_of, as_targets};

use crate::target::{
    OpenTarget, are_back, are_back_after, has_announced, has_returned, new_targets, note_targets,
};
use cam_types::{Four, FrameNo, PARTIAL_RESULT_COUNT, Settings};
use judge_entries::entry::{is_error_request, is_error_result, is_stop};
use trace_model::{Entry, Sent};

/// An open frame: its settings and whether its request repeats, the time of its shutter and the parts it has, whether
/// its request and its result failed, whether it was sent when the device stopped, and its buffers.
#[derive(Clone, Copy)]
pub struct OpenRow {
    pub frame: FrameNo,
    pub settings: Settings,
    pub repeats: bool,
    pub shutter: Option<u64>,
    pub parts: u8,
    pub request_error: bool,
    pub result_error: bool,
    pub stopped: bool,
    pub targets: Four<OpenTarget>,
}

fn time_after(entry: &Entry, frame: FrameNo, old: Option<u64>) -> Option<u64>
    ensures { result ≡ note_time entry.now frame.0 old }
{
    match entry {
        Entry::Shutter { frame: of, time } => { if of.0 == frame.0 { Some(*time) } else { old } }
        _ => old,
    }
}

fn parts_after(entry: &Entry, frame: FrameNo, old: u8) -> u8
    ensures { result ≡ partials_after entry.now frame.0 old }
{
    match entry {
        Entry::Partial {
            frame: of,
            number,
            ..
        } => { if of.0 == frame.0 { *number } else { old } }
        _ => old,
    }
}

/// The row after an entry, which gives device fences only to buffers that have none.
pub(crate) fn note_row(entry: &Entry, row: &OpenRow) -> OpenRow
    requires { IsTrue (list_all (is_free entry.now row.now.frame.0) (as_targets row.now.targets)) }
    ensures { row_of result ≡ row_after entry.now (row_of row.now) }
{
    let frame = row.frame;
    OpenRow {
        frame,
        settings: row.settings,
        repeats: row.repeats,
        shutter: time_after(entry, frame, row.shutter),
        parts: parts_after(entry, frame, row.parts),
        request_error: is_error_request(entry, frame) || row.request_error,
        result_error: is_error_result(entry, frame) || row.result_error,
        stopped: is_stop(entry) || row.stopped,
        targets: note_targets(entry, frame, row.targets),
    }
}

/// Whether the frame's metadata ended.
pub fn is_ended(row: &OpenRow) -> bool
    ensures { result ≡ is_ended (row_of row.now) }
{
    PARTIAL_RESULT_COUNT <= row.parts || (row.result_error || row.request_error)
}

/// Whether anything came of the frame but its shutter.
pub fn has_something(row: &OpenRow) -> bool
    ensures { result ≡ has_something_row (row_of row.now) }
{
    0 < row.parts
        || (has_returned(&row.targets)
            || (row.request_error || (row.result_error || has_announced(&row.targets))))
}

/// Whether the frame is open.
pub(crate) fn is_open(row: &OpenRow) -> bool
    ensures { result ≡ is_open_row (row_of row.now) }
{
    !(is_ended(row) && are_back(&row.targets))
}

/// Whether the frame's metadata ended with an entry.
fn is_ended_after(entry: &Entry, row: &OpenRow) -> bool
    ensures { result ≡ is_ended (row_after entry.now (row_of row.now)) }
{
    let frame = row.frame;
    PARTIAL_RESULT_COUNT <= parts_after(entry, frame, row.parts)
        || ((is_error_result(entry, frame) || row.result_error)
            || (is_error_request(entry, frame) || row.request_error))
}

/// Whether the frame is open after an entry.
pub(crate) fn stays_open(entry: &Entry, row: &OpenRow) -> bool
    ensures { result ≡ is_open_row (row_after entry.now (row_of row.now)) }
{
    !(is_ended_after(entry, row) && are_back_after(entry, row.frame, &row.targets))
}

/// The row of a frame that was just sent.
pub(crate) fn new_row(
    frame: FrameNo,
    settings: Settings,
    repeats: bool,
    targets: &Four<Sent>,
) -> OpenRow
    ensures { row_of result ≡ sent_row frame settings repeats targets.now }
{
    OpenRow {
        frame,
        settings,
        repeats,
        shutter: None,
        parts: 0,
        request_error: false,
        result_error: false,
        stopped: false,
        targets: new_targets(targets),
    }
}
