//! Whether an entry is the one that is due.
ghost use Rattle.std.specs.Prelude.{◌≡◌, ◌↔◌, ◌<◌, ◌^◌, ◌+◌, false, length, IsTrue};
ghost use Rattle.cam_types.specs.Profile.{is_profile};
ghost use Rattle.trace_model.specs.Queue.{first_in};
ghost use Rattle.state_facts.specs.Runs.{MayAdd};
ghost use Rattle.state_facts.specs.States.{drop_in, drop_with};
ghost use Rattle.trace_check.specs.Drawing.{CanDraw, has_digest};

use crate::buffers::{early_due, failed_due};
use crate::client::client_due;
use crate::errors::{error_buffer_due, error_request_due, error_result_due};
use crate::exposures::{error_device_due, shutter_due};
use crate::filled_due::{is_filled_due, is_late_due};
use crate::parts::partial_due;
use crate::pictures::Fill;
use crate::send::is_send_due;
use cam_types::Script;
use judge_rows::JudgeTables;
use judge_rules::same;
use picture_stages::PictureDigests;
use trace_model::Entry;

/// The drop that is due.
pub fn drop_due(tables: &JudgeTables) -> Option<Entry>
    ensures { result ≡ drop_in tables.now.state }
{
    if tables.client().is_stopping() {
        next_drop(tables)
    } else {
        None
    }
}

/// The drop of the first item that waits.
fn next_drop(tables: &JudgeTables) -> Option<Entry>
    ensures { result ≡ drop_with tables.now.state.queue.numbers (first_in tables.now.state.queue.waiting) }
{
    match tables.captures().first_waiting() {
        Some(waiting) => Some(Entry::Dropped {
            frame: tables.captures().next_frame(),
            request: waiting.request,
            item: waiting.index,
        }),
        None => None,
    }
}

/// Whether the entry, if it is one without a digest, is due.
fn is_plain_due(script: &Script, tables: &JudgeTables, entry: &Entry) -> bool
    requires profile { IsTrue (is_profile script.now.profile) }
    requires numbered { tables.now.state.buffers.first + (length tables.now.state.buffers.places + 72) < 2 ^ 32 }
    ensures { has_digest entry.now ≡ false → (IsTrue result ↔ MayAdd script.now tables.now.state entry.now) }
{
    match *entry {
        Entry::Begin { .. } => same::is_due(client_due(script, tables), *entry),
        Entry::Call { .. } => same::is_due(client_due(script, tables), *entry),
        Entry::Send {
            frame,
            request,
            item,
            same,
            targets,
        } => is_send_due(script, tables, frame, request, item, same, targets),
        Entry::Dropped { .. } => same::is_due(drop_due(tables), *entry),
        Entry::Shutter { .. } => same::is_due(shutter_due(script, tables), *entry),
        Entry::Partial { frame, .. } => same::is_due(partial_due(script, tables, frame), *entry),
        Entry::Filled { .. } => false,
        Entry::Late { .. } => false,
        Entry::Early { frame, stream, .. } => same::is_due(
            early_due(script, tables, frame, stream),
            *entry,
        ),
        Entry::Failed { frame, stream, .. } => same::is_due(
            failed_due(tables, frame, stream),
            *entry,
        ),
        Entry::ErrorRequest { frame } => same::is_due(
            error_request_due(script, tables, frame),
            *entry,
        ),
        Entry::ErrorResult { frame } => same::is_due(
            error_result_due(script, tables, frame),
            *entry,
        ),
        Entry::ErrorBuffer { frame, stream } => same::is_due(
            error_buffer_due(script, tables, frame, stream),
            *entry,
        ),
        Entry::ErrorDevice => same::is_due(error_device_due(script, tables), *entry),
        Entry::Release { buffer, .. } => same::is_due(tables.homes().release_due(buffer), *entry),
        Entry::Signal { fence } => same::is_due(tables.homes().signal_due(fence), *entry),
    }
}

/// Whether the entry may be added to a trace of a valid script whose state the tables hold, with the memory of digests.
pub fn is_due(
    script: &Script,
    tables: &JudgeTables,
    entry: &Entry,
    memory: PictureDigests,
) -> (bool, PictureDigests)
    requires profile { IsTrue (is_profile script.now.profile) }
    requires numbered { tables.now.state.buffers.first + (length tables.now.state.buffers.places + 72) < 2 ^ 32 }
    requires pictures { CanDraw tables.now.state }
    ensures { IsTrue result.0 ↔ MayAdd script.now tables.now.state entry.now }
{
    match *entry {
        Entry::Filled {
            frame,
            stream,
            buffer,
            fence,
            digest,
        } => {
            let fill = Fill {
                frame,
                stream,
                buffer,
                fence,
                digest,
            };
            is_filled_due(script, tables, fill, memory)
        }
        Entry::Late { fence, digest } => is_late_due(tables, fence, digest, memory),
        _ => (is_plain_due(script, tables, entry), memory),
    }
}
