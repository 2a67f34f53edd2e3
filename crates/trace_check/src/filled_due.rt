//! Whether a filled buffer, or the signal of a device fence, is due: its digest is that of its picture.
ghost use Rattle.std.specs.Prelude.{◌≡◌, ◌↔◌, ℕ, List, Option, option_map, slice_get, IsTrue};
ghost use Rattle.std.specs.List.{list_all};
ghost use Rattle.cam_types.specs.Picture.{is_offered};
ghost use Rattle.trace_model.specs.Picture.{digest_on};
ghost use Rattle.state_facts.specs.FrameReadings.{filled_from, filled_row, late_from};
ghost use Rattle.state_facts.specs.Homes.{passed_in};
ghost use Rattle.state_facts.specs.States.{filled_in, late_in};
ghost use Rattle.judge_rows.specs.Views.{row_of, as_target};
ghost use Rattle.trace_check.specs.Drawing.{CanDraw, is_drawable};

use crate::buffers::may_deliver;
use crate::pictures::{Fill, is_its_digest};
use crate::targets::{pending_target, target_for};
use cam_types::{DeviceFenceNo, FrameNo, Script, StreamIx};
use judge_rows::{JudgeTables, OpenRow, OpenTarget, find_row, pending_row};
use picture_stages::PictureDigests;
use trace_model::Entry;

/// Whether the row's buffer may come back as this one, but for the digest.
fn fills_as(
    script: &Script,
    tables: &JudgeTables,
    fill: Fill,
    row: &OpenRow,
    target: Option<OpenTarget>,
) -> bool
    ensures { let s = tables.now.state in
        (IsTrue result
        × (fill.digest ≡ digest_on (slice_get s.client.streams fill.stream.0) row.now.settings row.now.frame.0))
        ↔ (filled_from script.now s.client.streams s.rows (passed_in s.buffers) fill.stream.0 (row_of row.now)
        (option_map as_target target) ≡
        Option.Some (Entry.Filled fill.frame fill.stream fill.buffer fill.fence fill.digest)) }
{
    match target {
        Some(target) => may_deliver(script, tables, fill.stream, row, target)
            && (row.frame.0 == fill.frame.0
                && (fill.fence.is_none() && target.sent.buffer.0 == fill.buffer.0)),
        None => false,
    }
}

/// Whether the row has the filled buffer due.
fn is_filled_of(
    script: &Script,
    tables: &JudgeTables,
    fill: Fill,
    row: &OpenRow,
    memory: PictureDigests,
) -> (bool, PictureDigests)
    requires offered { IsTrue (list_all is_offered tables.now.state.client.streams) }
    requires drawable { IsTrue (is_drawable row.now.settings) }
    ensures { let s = tables.now.state in
        IsTrue result.0 ↔
        (filled_row script.now s.client.streams s.rows (passed_in s.buffers) fill.stream.0 (row_of row.now) ≡
        Option.Some (Entry.Filled fill.frame fill.stream fill.buffer fill.fence fill.digest)) }
{
    let target = target_for(&row.targets, fill.stream);
    if fills_as(script, tables, fill, row, target) {
        is_its_digest(tables, fill.stream, row, fill.digest, memory)
    } else {
        (false, memory)
    }
}

/// Whether the filled buffer is due.
pub(crate) fn is_filled_due(
    script: &Script,
    tables: &JudgeTables,
    fill: Fill,
    memory: PictureDigests,
) -> (bool, PictureDigests)
    requires { CanDraw tables.now.state }
    ensures { IsTrue result.0 ↔
        (filled_in script.now tables.now.state fill.frame.0 fill.stream.0 ≡
        Option.Some (Entry.Filled fill.frame fill.stream fill.buffer fill.fence fill.digest)) }
{
    match find_row(tables.rows().rows(), fill.frame) {
        Some(row) => is_filled_of(script, tables, fill, &row, memory),
        None => (false, memory),
    }
}

/// Whether the buffer's device fence is signalled next, with its picture.
fn is_late_at(
    tables: &JudgeTables,
    fence: DeviceFenceNo,
    digest: [u8; 32],
    row: &OpenRow,
    target: Option<OpenTarget>,
    memory: PictureDigests,
) -> (bool, PictureDigests)
    requires offered { IsTrue (list_all is_offered tables.now.state.client.streams) }
    requires drawable { IsTrue (is_drawable row.now.settings) }
    ensures { IsTrue result.0 ↔
        (late_from tables.now.state.client.streams fence.0 (row_of row.now) (option_map as_target target) ≡
        Option.Some (Entry.Late fence digest)) }
{
    match target {
        Some(target) => is_its_digest(tables, target.sent.stream, row, digest, memory),
        None => (false, memory),
    }
}

/// Whether the signal of the device fence is due.
pub(crate) fn is_late_due(
    tables: &JudgeTables,
    fence: DeviceFenceNo,
    digest: [u8; 32],
    memory: PictureDigests,
) -> (bool, PictureDigests)
    requires { CanDraw tables.now.state }
    ensures { IsTrue result.0 ↔
        (late_in tables.now.state fence.0 ≡ Option.Some (Entry.Late fence digest)) }
{
    match pending_row(tables.rows().rows(), fence) {
        Some(row) => {
            let target = pending_target(&row.targets, fence);
            is_late_at(tables, fence, digest, &row, target, memory)
        }
        None => (false, memory),
    }
}
