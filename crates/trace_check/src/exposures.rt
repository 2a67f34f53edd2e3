//! The shutter, or the device's failure, that is due.
ghost use Rattle.std.specs.Prelude.{◌≡◌, find, option_copied, option_map};
ghost use Rattle.state_facts.specs.FrameReadings.{device_fails, is_unexposed, next_exposed};
ghost use Rattle.state_facts.specs.Replies.{stopping_in};
ghost use Rattle.state_facts.specs.States.{error_device_in, shutter_in};
ghost use Rattle.judge_rows.specs.Views.{row_of};

use cam_types::Script;
use judge_entries::fault::device_fault;
use judge_rows::{JudgeTables, OpenRow};
use trace_model::Entry;

/// Whether the open frame has neither its shutter nor failed whole.
fn is_unexposed(row: &OpenRow) -> bool
    ensures { result ≡ is_unexposed (row_of row.now) }
{
    row.shutter.is_none() && !row.request_error
}

fn first_unexposed(rows: &[OpenRow]) -> Option<&OpenRow>
    ensures { option_copied result ≡ find (λ r. is_unexposed (row_of r)) rows.now }
{
    rows.iter().find(|row| is_unexposed(row))
}

/// The row of the frame that is the next for the sensor.
fn next_exposed(tables: &JudgeTables) -> Option<OpenRow>
    ensures { option_map row_of result ≡ next_exposed tables.now.state.rows }
{
    first_unexposed(tables.rows().rows()).copied()
}

/// The shutter that is due.
pub fn shutter_due(script: &Script, tables: &JudgeTables) -> Option<Entry>
    ensures { result ≡ shutter_in script.now tables.now.state }
{
    match next_exposed(tables) {
        Some(row) => {
            if !tables.client().is_stopping() && !device_fault(script, row.frame) {
                Some(Entry::Shutter {
                    frame: row.frame,
                    time: tables.clock(),
                })
            } else {
                None
            }
        }
        None => None,
    }
}

/// Whether the device fails at the frame that is the next for the sensor.
fn device_fails(script: &Script, tables: &JudgeTables) -> bool
    ensures { let s = tables.now.state in
        result ≡ device_fails script.now (stopping_in s.client) (next_exposed s.rows) }
{
    match next_exposed(tables) {
        Some(row) => !tables.client().is_stopping() && device_fault(script, row.frame),
        None => false,
    }
}

/// The device's failure that is due.
pub fn error_device_due(script: &Script, tables: &JudgeTables) -> Option<Entry>
    ensures { result ≡ error_device_in script.now tables.now.state }
{
    if device_fails(script, tables) {
        Some(Entry::ErrorDevice)
    } else {
        None
    }
}
