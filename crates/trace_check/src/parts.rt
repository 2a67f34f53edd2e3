//! The partial result that is due.
ghost use Rattle.std.specs.Prelude.{◌≡◌, ◌+◌, Option, option_map};
ghost use Rattle.state_facts.specs.FrameReadings.{may_part_row, part_from, part_row};
ghost use Rattle.state_facts.specs.States.{partial_in};
ghost use Rattle.judge_rows.specs.Views.{row_of};

use crate::before::earlier_ended;
use cam_types::{FrameNo, PARTIAL_RESULT_COUNT, Script};
use judge_entries::fault::{request_fault, result_fault};
use judge_rows::{JudgeTables, OpenRow, find_row};
use metadata::part;
use trace_model::Entry;

/// Whether the frame's part of the number may come.
fn may_have_partial(script: &Script, tables: &JudgeTables, row: &OpenRow, number: u8) -> bool
    ensures { result ≡ may_part_row script.now tables.now.state.rows (row_of row.now) number }
{
    (!row.request_error && (!row.result_error && !request_fault(script, row.frame)))
        && (number <= 3
            && (number != 3
                || (!result_fault(script, row.frame)
                    && earlier_ended(tables.rows().rows(), row.frame))))
}

/// The next part of a frame that had its shutter at the time.
fn part_due(script: &Script, tables: &JudgeTables, row: &OpenRow, time: u64) -> Option<Entry>
    ensures { result ≡
        part_from script.now tables.now.state.rows (row_of row.now) (row.now.parts + 1) (Option.Some time) }
{
    if row.parts >= PARTIAL_RESULT_COUNT {
        return None;
    }
    let number = row.parts + 1;
    if may_have_partial(script, tables, row, number) {
        Some(Entry::Partial {
            frame: row.frame,
            number,
            part: part(number, row.settings, time),
        })
    } else {
        None
    }
}

fn row_part_due(script: &Script, tables: &JudgeTables, row: &OpenRow) -> Option<Entry>
    ensures { result ≡ part_row script.now tables.now.state.rows (row_of row.now) }
{
    match row.shutter {
        Some(time) => part_due(script, tables, row, time),
        None => None,
    }
}

/// The partial result of the frame that is due.
pub fn partial_due(script: &Script, tables: &JudgeTables, frame: FrameNo) -> Option<Entry>
    ensures { result ≡ partial_in script.now tables.now.state frame.0 }
{
    match find_row(tables.rows().rows(), frame) {
        Some(row) => row_part_due(script, tables, &row),
        None => None,
    }
}
