//! The row of a live request: what it says, and how an event is noted in it.
ghost use Rattle.std.specs.Prelude.{◌≡◌, ◌&&◌, ◌||◌, not, None, map, IfOk, OnOk, if◌then◌else◌};
ghost use Rattle.hal_model.specs.Words.{accepts, begins_flush, gives_something, is_error_buffer, is_error_in, is_error_request, is_error_result, is_last_empty, is_last_part, is_part, is_point, is_shutter, refuses};
ghost use Rattle.hal_model.specs.Device.{is_entered, is_said};
ghost use Rattle.std.specs.List.{list_all, list_any};
ghost use Rattle.hal_rows.specs.Row.{fresh_row, is_flush_ok, is_row_complete, is_row_done, is_row_ended, is_row_in_call, is_row_in_time, is_row_live, is_row_outstanding, is_row_unannounced, is_row_unannounced_at, is_row_whole, note_part, note_row, note_target};

use crate::target::{
    fresh_parts, fresh_targets, has_number, note_notices, note_parts, note_targets,
};
use crate::word::{
    accepts, begins_flush, gives_something, is_entered, is_error_buffer, is_error_in,
    is_error_request, is_error_result, is_last_empty, is_last_part, is_part, is_point, is_said,
    is_shutter, refuses, stands,
};
use cam_types::{Listing, NoMemory};
use hal_model::{HalEvent, HalTarget};
use hal_rows::{PartRow, Row, TargetRow};
use std::alloc::Global;

// ---- what a row says

fn are_back(targets: &[TargetRow]) -> bool
    ensures { result ≡ list_all (λ t. t.back) targets.now }
{
    targets.iter().all(|target| target.back)
}

/// Whether metadata ended and each target is back.
pub fn is_ended(row: &Row) -> bool
    ensures { result ≡ is_row_ended row.now }
{
    (row.last_part || (row.result_error || row.failed)) && are_back(row.targets.as_slice())
}

/// Whether the request is complete.
pub fn is_complete(row: &Row) -> bool
    ensures { result ≡ is_row_complete row.now }
{
    row.accepted && is_ended(row)
}

/// Whether the request is outstanding.
pub fn is_outstanding(row: &Row) -> bool
    ensures { result ≡ is_row_outstanding row.now }
{
    row.accepted && !is_ended(row)
}

/// Whether the request is in call.
pub fn is_in_call(row: &Row) -> bool
    ensures { result ≡ is_row_in_call row.now }
{
    !row.accepted && !row.refused
}

/// Whether the target is back in error without its notice.
pub fn is_unannounced_at(row: &Row, target: &TargetRow) -> bool
    ensures { result ≡ is_row_unannounced_at row.now target.now }
{
    target.broken && !has_number(target.target.stream, row.notices.as_slice())
}

fn is_some_unannounced(row: &Row) -> bool
    ensures { result ≡ list_any (is_row_unannounced_at row.now) row.now.targets }
{
    row.targets
        .as_slice()
        .iter()
        .any(|target| is_unannounced_at(row, target))
}

/// Whether a target is back in error without its notice, and no error of the request tells of it.
pub fn is_unannounced(row: &Row) -> bool
    ensures { result ≡ is_row_unannounced row.now }
{
    !row.failed && is_some_unannounced(row)
}

fn are_seen(parts: &[PartRow]) -> bool
    ensures { result ≡ list_all (λ p. p.seen) parts.now }
{
    parts.iter().all(|part| part.seen)
}

/// Whether the request's shutter and all its metadata stand, and no error of its result.
fn is_whole(row: &Row) -> bool
    ensures { result ≡ is_row_whole row.now }
{
    row.shutter && (are_seen(row.parts.as_slice()) && !row.result_error)
}

/// Whether the request is done.
pub fn is_done(row: &Row) -> bool
    ensures { result ≡ is_row_done row.now }
{
    (is_complete(row) && (!is_unannounced(row) && (row.failed || is_whole(row)))) || row.passed
}

/// Whether the request is live.
pub fn is_live(row: &Row) -> bool
    ensures { result ≡ is_row_live row.now }
{
    !row.refused && !is_done(row)
}

/// Whether the event, where a flush or a close has returned, speaks of the request.
pub fn is_in_time(event: &HalEvent, row: &Row) -> bool
    ensures { result ≡ is_row_in_time event.now row.now }
{
    match event {
        HalEvent::FlushOk => row.before_flush,
        _ => true,
    }
}

// ---- how an event is noted

fn is_flush_ok(event: &HalEvent) -> bool
    ensures { result ≡ is_flush_ok event.now }
{
    matches!(event, HalEvent::FlushOk)
}

fn is_sound(parts: u32, event: &HalEvent, row: &Row) -> bool
    ensures { result ≡
        ((is_part row.now.frame parts event.now && not (row.now.result_error || row.now.failed)) || row.now.sound) }
{
    (is_part(row.frame, parts, event) && !(row.result_error || row.failed)) || row.sound
}

fn is_passed(event: &HalEvent, row: &Row) -> bool
    ensures { result ≡
        ((is_point event.now && (is_row_in_time event.now row.now && is_row_complete row.now)) || row.now.passed) }
{
    (is_point(event) && (is_in_time(event, row) && is_complete(row))) || row.passed
}

fn is_flushed(event: &HalEvent, row: &Row) -> bool
    ensures { result ≡ ((is_flush_ok event.now && row.now.before_flush) || row.now.flushed) }
{
    (is_flush_ok(event) && row.before_flush) || row.flushed
}

fn is_before_flush(event: &HalEvent, row: &Row) -> bool
    ensures { result ≡ (if begins_flush event.now then row.now.accepted else row.now.before_flush) }
{
    if begins_flush(event) {
        row.accepted
    } else {
        row.before_flush
    }
}

/// Notes what becomes of the request by what its row said before.
fn note_state(parts: u32, event: &HalEvent, row: &mut Row)
    ensures { row.new ≡ record row.old {
      sound = (is_part row.old.frame parts event.now && not (row.old.result_error || row.old.failed)) || row.old.sound;
      before_flush = if begins_flush event.now then row.old.accepted else row.old.before_flush;
      flushed = (is_flush_ok event.now && row.old.before_flush) || row.old.flushed;
      passed = (is_point event.now && (is_row_in_time event.now row.old && is_row_complete row.old)) || row.old.passed;
    } }
{
    row.sound = is_sound(parts, event, row);
    row.passed = is_passed(event, row);
    row.flushed = is_flushed(event, row);
    row.before_flush = is_before_flush(event, row);
}

/// Notes what the event says of the request's call.
fn note_call(event: &HalEvent, row: &mut Row)
    ensures { row.new ≡ record row.old {
      entered = is_entered event.now || row.old.entered;
      accepted = accepts row.old.frame event.now || row.old.accepted;
      refused = refuses row.old.frame event.now || row.old.refused;
      said = is_said row.old.frame event.now || row.old.said;
    } }
{
    row.entered = stands(is_entered(event), row.entered);
    row.accepted = stands(accepts(row.frame, event), row.accepted);
    row.refused = stands(refuses(row.frame, event), row.refused);
    row.said = stands(is_said(row.frame, event), row.said);
}

/// Notes the shutter and the errors.
fn note_errors(event: &HalEvent, row: &mut Row)
    ensures { row.new ≡ record row.old {
      shutter = is_shutter row.old.frame event.now || row.old.shutter;
      failed = is_error_request row.old.frame event.now || row.old.failed;
      result_error = is_error_result row.old.frame event.now || row.old.result_error;
      part_error = is_error_in row.old.frame event.now || row.old.part_error;
      unknown_notice = is_error_buffer row.old.frame None event.now || row.old.unknown_notice;
    } }
{
    row.shutter = stands(is_shutter(row.frame, event), row.shutter);
    row.failed = stands(is_error_request(row.frame, event), row.failed);
    row.result_error = stands(is_error_result(row.frame, event), row.result_error);
    row.part_error = stands(is_error_in(row.frame, event), row.part_error);
    row.unknown_notice = stands(is_error_buffer(row.frame, None, event), row.unknown_notice);
}

/// Notes what a result brings.
fn note_result(
    alloc: Global,
    parts: u32,
    flushing: bool,
    event: &HalEvent,
    row: &mut Row,
) -> Result<(), NoMemory>
    ensures { OnOk result (row.new ≡ record row.old {
      last_part = is_last_part parts row.old.frame event.now || row.old.last_part;
      last_empty = is_last_empty parts row.old.frame event.now || row.old.last_empty;
      something = gives_something row.old.frame event.now || row.old.something;
      targets = map (note_target row.old.frame flushing event.now) row.old.targets;
      parts = map (note_part row.old.frame event.now) row.old.parts;
    }) }
{
    let frame = row.frame;
    row.last_part = stands(is_last_part(parts, frame, event), row.last_part);
    row.last_empty = stands(is_last_empty(parts, frame, event), row.last_empty);
    row.something = stands(gives_something(frame, event), row.something);
    note_targets(alloc, frame, flushing, event, &mut row.targets)?;
    note_parts(alloc, frame, event, &mut row.parts)
}

/// Notes an event in the row of a request that it doesn't begin.
pub fn note_row(
    alloc: Global,
    parts: u32,
    flushing: bool,
    event: &HalEvent,
    row: &mut Row,
) -> Result<(), NoMemory>
    ensures { OnOk result (row.new ≡ note_row parts flushing event.now row.old) }
{
    note_state(parts, event, row);
    note_call(event, row);
    note_errors(event, row);
    note_result(alloc, parts, flushing, event, row)?;
    note_notices(alloc, row.frame, event, &mut row.notices)
}

/// What stands where a request begins.
#[derive(Clone, Copy)]
pub struct Start {
    pub frame: u32,
    pub rank: u32,
    pub same: bool,
    pub initialized: bool,
    pub dead: bool,
    pub excused: bool,
}

/// The row of a request that begins.
pub fn fresh_row(
    alloc: Global,
    parts: u32,
    start: Start,
    targets: &Listing<HalTarget>,
) -> Result<Row, NoMemory>
    ensures { IfOk result (λ row. row ≡ fresh_row parts start.frame start.rank targets.now start.same
        start.initialized start.dead start.excused) }
{
    let targets = fresh_targets(alloc, targets)?;
    let parts = fresh_parts(alloc, parts)?;
    Ok(Row {
        frame: start.frame,
        rank: start.rank,
        targets,
        parts,
        same: start.same,
        initialized: start.initialized,
        dead: start.dead,
        excused: start.excused,
        entered: false,
        accepted: false,
        refused: false,
        said: false,
        shutter: false,
        failed: false,
        result_error: false,
        part_error: false,
        unknown_notice: false,
        last_part: false,
        last_empty: false,
        something: false,
        sound: false,
        notices: Listing::new(alloc),
        before_flush: false,
        flushed: false,
        passed: false,
    })
}
