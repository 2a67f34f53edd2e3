//! What is due of the open frames.
ghost use Rattle.std.specs.Prelude.{◌≡◌, ◌++◌, OnOk, map};
ghost use Rattle.trace_model.specs.Entry.{is_shutter};
ghost use Rattle.state_facts.specs.States.{shutter_in};
ghost use Rattle.allowed_entries.specs.Known.{shown_where};
ghost use Rattle.allowed_entries.specs.Readings.{frame_in, frames_in};

use crate::buffers::{BufferEntry, add_buffers};
use crate::entry::{AllowedEntry, known_of};
use crate::list::add_due;
use cam_types::{FrameNo, NoMemory, Script};
use judge_entries::entry::is_shutter;
use judge_rows::{JudgeTables, OpenRow};
use trace_check::errors::{error_request_due, error_result_due};
use trace_check::exposures::shutter_due;
use trace_check::parts::partial_due;

/// Adds the shutter, where it is due of the frame.
fn add_shutter(
    list: &mut Vec<AllowedEntry>,
    script: &Script,
    tables: &JudgeTables,
    frame: FrameNo,
) -> Result<(), NoMemory>
    ensures { OnOk result (list.new.items ≡
        list.old.items ++ shown_where (is_shutter frame.0) (shutter_in script.now tables.now.state)) }
{
    if let Some(entry) = shutter_due(script, tables) {
        if is_shutter(&entry, frame) {
            list.push(known_of(entry))?;
        }
    }
    Ok(())
}

/// Adds what is due of the frame.
#[tactic(auto, unfolding(crate::specs::Readings::frame_in))]
fn add_frame(
    list: &mut Vec<AllowedEntry>,
    script: &Script,
    tables: &JudgeTables,
    frame: FrameNo,
) -> Result<(), NoMemory>
    ensures { OnOk result (list.new.items ≡ list.old.items ++ frame_in script.now tables.now.state frame.0) }
{
    add_shutter(list, script, tables, frame)?;
    add_due(list, partial_due(script, tables, frame))?;
    add_buffers(list, script, tables, frame, BufferEntry::Picture)?;
    add_buffers(list, script, tables, frame, BufferEntry::Early)?;
    add_due(list, error_request_due(script, tables, frame))?;
    add_due(list, error_result_due(script, tables, frame))?;
    add_buffers(list, script, tables, frame, BufferEntry::Error)?;
    add_buffers(list, script, tables, frame, BufferEntry::Failure)
}

/// Adds what is due of the frames of rows.
fn add_rows(
    list: &mut Vec<AllowedEntry>,
    script: &Script,
    tables: &JudgeTables,
    rows: &[OpenRow],
) -> Result<(), NoMemory>
    ensures { OnOk result (list.new.items ≡
        list.old.items ++ frames_in script.now tables.now.state (map (λ r. r.frame.0) rows.now)) }
{
    for row in rows {
        add_frame(list, script, tables, row.frame)?;
    }
    Ok(())
}

/// Adds what is due of the open frames, the oldest first.
pub(crate) fn add_frames(
    list: &mut Vec<AllowedEntry>,
    script: &Script,
    tables: &JudgeTables,
) -> Result<(), NoMemory>
    ensures { OnOk result (list.new.items ≡
        list.old.items ++ frames_in script.now tables.now.state (map (λ r. r.number) tables.now.state.rows)) }
{
    add_rows(list, script, tables, tables.rows().rows())
}
