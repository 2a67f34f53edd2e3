//! The error of a frame that is due.
ghost use Rattle.std.specs.Prelude.{◌≡◌, option_map};
ghost use Rattle.state_facts.specs.FrameReadings.{began, buffer_from, request_row, result_row};
ghost use Rattle.state_facts.specs.States.{error_buffer_in, error_request_in, error_result_in};
ghost use Rattle.judge_rows.specs.Views.{row_of, as_target};

use crate::before::earlier_ended;
use crate::targets::target_for;
use cam_types::{FrameNo, Script, StreamIx};
use judge_entries::fault::{buffer_fault, request_fault, result_fault};
use judge_rows::{JudgeTables, OpenRow, OpenTarget, find_row, has_something, is_ended};
use trace_model::Entry;

/// Whether the frame's errors are of its parts.
fn began(script: &Script, row: &OpenRow) -> bool
    ensures { result ≡ began script.now (row_of row.now) }
{
    row.shutter.is_some() && (!request_fault(script, row.frame) || row.stopped)
}

fn row_request_due(script: &Script, row: &OpenRow) -> Option<Entry>
    ensures { result ≡ request_row script.now (row_of row.now) }
{
    if !has_something(row)
        && ((request_fault(script, row.frame) && row.shutter.is_some()) || row.stopped)
    {
        Some(Entry::ErrorRequest { frame: row.frame })
    } else {
        None
    }
}

/// The error of the whole capture that is due.
pub fn error_request_due(script: &Script, tables: &JudgeTables, frame: FrameNo) -> Option<Entry>
    ensures { result ≡ error_request_in script.now tables.now.state frame.0 }
{
    match find_row(tables.rows().rows(), frame) {
        Some(row) => row_request_due(script, &row),
        None => None,
    }
}

fn row_result_due(script: &Script, tables: &JudgeTables, row: &OpenRow) -> Option<Entry>
    ensures { result ≡ result_row script.now tables.now.state.rows (row_of row.now) }
{
    if (began(script, row) && !is_ended(row))
        && (earlier_ended(tables.rows().rows(), row.frame)
            && (result_fault(script, row.frame) || (row.stopped && has_something(row))))
    {
        Some(Entry::ErrorResult { frame: row.frame })
    } else {
        None
    }
}

/// The error of the frame's metadata that is due.
pub fn error_result_due(script: &Script, tables: &JudgeTables, frame: FrameNo) -> Option<Entry>
    ensures { result ≡ error_result_in script.now tables.now.state frame.0 }
{
    match find_row(tables.rows().rows(), frame) {
        Some(row) => row_result_due(script, tables, &row),
        None => None,
    }
}

fn target_error_due(
    script: &Script,
    stream: StreamIx,
    row: &OpenRow,
    target: Option<OpenTarget>,
) -> Option<Entry>
    ensures { result ≡ buffer_from script.now stream.0 (row_of row.now) (option_map as_target target) }
{
    match target {
        Some(target) => {
            if (began(script, row) && !row.request_error)
                && ((!target.announced && !target.returned)
                    && (buffer_fault(script, row.frame, stream)
                        || (row.stopped && has_something(row))))
            {
                Some(Entry::ErrorBuffer {
                    frame: row.frame,
                    stream,
                })
            } else {
                None
            }
        }
        None => None,
    }
}

/// The error of the frame's buffer that is due.
pub fn error_buffer_due(
    script: &Script,
    tables: &JudgeTables,
    frame: FrameNo,
    stream: StreamIx,
) -> Option<Entry>
    ensures { result ≡ error_buffer_in script.now tables.now.state frame.0 stream.0 }
{
    match find_row(tables.rows().rows(), frame) {
        Some(row) => target_error_due(script, stream, &row, target_for(&row.targets, stream)),
        None => None,
    }
}
