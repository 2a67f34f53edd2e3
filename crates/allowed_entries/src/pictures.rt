//! Pictures that are due: all but their digests.
ghost use Rattle.std.specs.Prelude.{◌≡◌, List, option_map, option_to_list};
ghost use Rattle.cam_types.specs.declared.stream.StreamSpec.{StreamSpec as SomeSpec};
ghost use Rattle.state_facts.specs.FrameReadings.{filled_from, late_from};
ghost use Rattle.state_facts.specs.Homes.{passed_in};
ghost use Rattle.state_facts.specs.Row.{Row as SomeRow};
ghost use Rattle.state_facts.specs.States.{filled_in, late_in};
ghost use Rattle.judge_rows.specs.Views.{row_of, as_target};
ghost use Rattle.allowed_entries.specs.Known.{shown};

use crate::entry::AllowedEntry;
use cam_types::{DeviceFenceNo, FrameNo, Script, StreamIx};
use judge_rows::{JudgeTables, OpenRow, OpenTarget, find_row, pending_row};
use trace_check::buffers::may_deliver;
use trace_check::targets::{pending_target, target_for};

/// The row's buffer for the stream, where it is due back with its picture.
fn filled_at(
    script: &Script,
    tables: &JudgeTables,
    stream: StreamIx,
    row: &OpenRow,
    target: Option<OpenTarget>,
) -> Option<AllowedEntry>
    ensures { let s = tables.now.state in
        option_to_list result ≡
        shown
        (filled_from script.now s.client.streams s.rows (passed_in s.buffers) stream.0 (row_of row.now)
        (option_map as_target target)) }
{
    match target {
        Some(target) => {
            if may_deliver(script, tables, stream, row, target) {
                Some(AllowedEntry::Filled {
                    frame: row.frame,
                    stream,
                    buffer: target.sent.buffer,
                })
            } else {
                None
            }
        }
        None => None,
    }
}

/// The frame's buffer for the stream, where it is due back with its picture.
pub(crate) fn filled_due(
    script: &Script,
    tables: &JudgeTables,
    frame: FrameNo,
    stream: StreamIx,
) -> Option<AllowedEntry>
    ensures { option_to_list result ≡
        shown (filled_in script.now tables.now.state frame.0 stream.0) }
{
    match find_row(tables.rows().rows(), frame) {
        Some(row) => filled_at(
            script,
            tables,
            stream,
            &row,
            target_for(&row.targets, stream),
        ),
        None => None,
    }
}

/// The signal of the device fence, where a buffer waits for it.
fn late_at(fence: DeviceFenceNo, target: Option<OpenTarget>) -> Option<AllowedEntry>
    ensures { (streams : List SomeSpec) (r : SomeRow) →
        option_to_list result ≡ shown (late_from streams fence.0 r (option_map as_target target)) }
{
    match target {
        Some(_) => Some(AllowedEntry::Late { fence }),
        None => None,
    }
}

/// The signal of the device fence, where it is due.
pub(crate) fn late_due(tables: &JudgeTables, fence: DeviceFenceNo) -> Option<AllowedEntry>
    ensures { option_to_list result ≡ shown (late_in tables.now.state fence.0) }
{
    match pending_row(tables.rows().rows(), fence) {
        Some(row) => late_at(fence, pending_target(&row.targets, fence)),
        None => None,
    }
}
