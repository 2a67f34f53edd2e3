//! A buffer that is due back, in error or early.
ghost use Rattle.std.specs.Prelude.{◌≡◌, None, length, option_map, if◌then◌else◌};
ghost use Rattle.state_facts.specs.FrameReadings.{early_from, failed_from, may_deliver_row};
ghost use Rattle.state_facts.specs.Homes.{passed_in};
ghost use Rattle.state_facts.specs.States.{early_in, failed_in};
ghost use Rattle.judge_rows.specs.Views.{row_of, as_target};

use crate::before::earlier_pass;
use crate::targets::target_for;
use cam_types::{DeviceFenceNo, FenceNo, FrameNo, Script, StreamIx};
use judge_entries::fault::{buffer_fault, request_fault};
use judge_rows::{JudgeTables, OpenRow, OpenTarget, find_row};
use trace_model::Entry;

/// Whether there is no fence to wait for, or it is signalled.
fn is_passed(tables: &JudgeTables, fence: Option<FenceNo>) -> bool
    ensures { result ≡ passed_in tables.now.state.buffers fence }
{
    match fence {
        Some(fence) => tables.homes().is_signalled(fence),
        None => true,
    }
}

/// Whether the buffer may come back with its picture.
pub fn may_deliver(
    script: &Script,
    tables: &JudgeTables,
    stream: StreamIx,
    row: &OpenRow,
    target: OpenTarget,
) -> bool
    ensures { let s = tables.now.state in
        result ≡ may_deliver_row script.now s.rows (passed_in s.buffers) stream.0 (row_of row.now) (as_target target) }
{
    (!target.returned
        && (row.shutter.is_some()
            && ((!request_fault(script, row.frame) && !buffer_fault(script, row.frame, stream))
                && (!row.request_error && !target.announced))))
        && (is_passed(tables, target.sent.fence)
            && earlier_pass(tables.rows().rows(), row.frame, stream))
}

/// The fence that is left to wait for.
fn left(tables: &JudgeTables, fence: Option<FenceNo>) -> Option<FenceNo>
    ensures { result ≡ (if passed_in tables.now.state.buffers fence then None else fence) }
{
    if is_passed(tables, fence) {
        None
    } else {
        fence
    }
}

fn target_failed_due(
    tables: &JudgeTables,
    stream: StreamIx,
    row: &OpenRow,
    target: Option<OpenTarget>,
) -> Option<Entry>
    ensures { result ≡
        failed_from (passed_in tables.now.state.buffers) stream.0 (row_of row.now) (option_map as_target target) }
{
    match target {
        Some(target) => {
            if !target.returned && (row.request_error || target.announced) {
                Some(Entry::Failed {
                    frame: row.frame,
                    stream,
                    buffer: target.sent.buffer,
                    fence: left(tables, target.sent.fence),
                })
            } else {
                None
            }
        }
        None => None,
    }
}

/// The failed buffer that is due.
pub fn failed_due(tables: &JudgeTables, frame: FrameNo, stream: StreamIx) -> Option<Entry>
    ensures { result ≡ failed_in tables.now.state frame.0 stream.0 }
{
    match find_row(tables.rows().rows(), frame) {
        Some(row) => target_failed_due(tables, stream, &row, target_for(&row.targets, stream)),
        None => None,
    }
}

fn target_early_due(
    script: &Script,
    tables: &JudgeTables,
    stream: StreamIx,
    row: &OpenRow,
    target: Option<OpenTarget>,
) -> Option<Entry>
    ensures { let s = tables.now.state in
        result ≡
        early_from script.now s.rows (passed_in s.buffers) (length s.buffers.late) stream.0 (row_of row.now)
        (option_map as_target target) }
{
    match target {
        Some(target) => {
            if script.early && may_deliver(script, tables, stream, row, target) {
                Some(Entry::Early {
                    frame: row.frame,
                    stream,
                    buffer: target.sent.buffer,
                    fence: DeviceFenceNo(tables.homes().early_count()),
                })
            } else {
                None
            }
        }
        None => None,
    }
}

/// The early return that is due.
pub fn early_due(
    script: &Script,
    tables: &JudgeTables,
    frame: FrameNo,
    stream: StreamIx,
) -> Option<Entry>
    ensures { result ≡ early_in script.now tables.now.state frame.0 stream.0 }
{
    match find_row(tables.rows().rows(), frame) {
        Some(row) => target_early_due(
            script,
            tables,
            stream,
            &row,
            target_for(&row.targets, stream),
        ),
        None => None,
    }
}
