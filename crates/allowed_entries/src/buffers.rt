//! What is due of an open frame's buffers.
ghost use Rattle.std.specs.Prelude.{◌≡◌, ◌++◌, OnOk};
ghost use Rattle.allowed_entries.specs.Known.{shown};
ghost use Rattle.allowed_entries.specs.Readings.{buffer_in, buffers_in};

use crate::entry::AllowedEntry;
use crate::list::{add, add_due};
use crate::pictures::filled_due;
use cam_types::{FrameNo, NoMemory, Script, StreamIx};
use judge_rows::JudgeTables;
use trace_check::buffers::{early_due, failed_due};
use trace_check::errors::error_buffer_due;

/// A kind of entry of a frame's buffer.
#[derive(Clone, Copy)]
pub(crate) enum BufferEntry {
    /// It comes back with its picture.
    Picture,
    /// It comes back before its picture is there.
    Early,
    /// It is announced that it won't be filled.
    Error,
    /// It comes back in error.
    Failure,
}

/// Adds the entry of the kind, where it is due of the frame's buffer for the stream.
fn add_buffer(
    list: &mut Vec<AllowedEntry>,
    script: &Script,
    tables: &JudgeTables,
    frame: FrameNo,
    kind: BufferEntry,
    stream: StreamIx,
) -> Result<(), NoMemory>
    ensures { OnOk result (list.new.items ≡
        list.old.items ++ shown (buffer_in script.now tables.now.state frame.0 kind stream.0)) }
{
    match kind {
        BufferEntry::Picture => add(list, filled_due(script, tables, frame, stream)),
        BufferEntry::Early => add_due(list, early_due(script, tables, frame, stream)),
        BufferEntry::Error => add_due(list, error_buffer_due(script, tables, frame, stream)),
        BufferEntry::Failure => add_due(list, failed_due(tables, frame, stream)),
    }
}

/// Adds the entries of the kind that are due of the frame's buffers.
#[tactic(auto, unfolding(crate::specs::Readings::buffers_in))]
pub(crate) fn add_buffers(
    list: &mut Vec<AllowedEntry>,
    script: &Script,
    tables: &JudgeTables,
    frame: FrameNo,
    kind: BufferEntry,
) -> Result<(), NoMemory>
    ensures { OnOk result
        (list.new.items ≡ list.old.items ++ buffers_in script.now tables.now.state frame.0 kind) }
{
    add_buffer(list, script, tables, frame, kind, StreamIx(0))?;
    add_buffer(list, script, tables, frame, kind, StreamIx(1))?;
    add_buffer(list, script, tables, frame, kind, StreamIx(2))?;
    add_buffer(list, script, tables, frame, kind, StreamIx(3))
}
