//! The rules that bind the device in what it says of a request: shutters, metadata and errors.
ghost use Rattle.std.specs.Prelude.{◌≡◌, ◌==◌, ◌&&◌, ◌||◌, nat_le, nat_lt, not, option_copied};
ghost use Rattle.std.specs.List.{list_any};
ghost use Rattle.hal_model.specs.Callbacks.{is_for};
ghost use Rattle.hal_model.specs.Framework.{is_empty};
ghost use Rattle.hal_model.specs.Words.{is_callback};
ghost use Rattle.hal_rows.specs.Judged.{callback_after_close_at, callback_after_failure_at, empty_result_at, error_beside_request_error_at, error_for_good_buffer_at, error_twice_at, error_unknown_stream_at, is_last_word_at, is_row_back_good, is_row_for, is_row_part_seen, is_row_told_of, metadata_after_request_error_at, metadata_order_at, of_found, partial_number_at, partial_twice_at, request_error_late_at, shutter_after_request_error_at, shutter_twice_at, unknown_frame_at};
ghost use Rattle.hal_rows.specs.State.{later_at};
ghost use Rattle.hal_checks.specs.Packs.{is_absent_pack, is_entries, is_last_result, is_wrong_number};
ghost use Rattle.hal_table.specs.State.{state_of};

use crate::later::is_later;
use hal_model::{HalEvent, Pack, Returned};
use hal_row::has_number;
use hal_rows::{Order, PartRow, Row, TargetRow};
use hal_table::HalTable;

// ---- any callback

/// Whether the event may come last of a request, also after it is done.
fn is_last_word(event: &HalEvent, table: &HalTable) -> bool
    ensures { result ≡ is_last_word_at event.now (state_of table.now) }
{
    match event {
        HalEvent::ErrorResult { frame } => u64::from(*frame) < table.device().top,
        HalEvent::ErrorBuffer { frame, .. } => u64::from(*frame) < table.device().top,
        HalEvent::Results {
            frame,
            pack,
            buffers,
            ..
        } => is_last_result(*pack, buffers.as_slice()) && u64::from(*frame) < table.device().top,
        _ => false,
    }
}

/// Whether the result has neither a buffer nor metadata.
fn is_last_result(pack: Pack, buffers: &[Returned]) -> bool
    ensures { result ≡ is_last_result pack buffers.now }
{
    match pack {
        Pack::Entries => false,
        _ => is_without_buffer(buffers),
    }
}

/// Whether there is no buffer.
#[tactic(auto, using(hal_table::proofs::Entries::empty_reads))]
fn is_without_buffer(buffers: &[Returned]) -> bool
    ensures { result ≡ is_empty buffers.now }
{
    buffers.is_empty()
}

/// Whether a callback names a request that isn't live, and isn't what may come last of one.
pub fn unknown_frame(event: &HalEvent, table: &HalTable) -> bool
    ensures { result ≡ unknown_frame_at event.now (state_of table.now) }
{
    table.names_idle(event) && !is_last_word(event, table)
}

fn is_callback(event: &HalEvent) -> bool
    ensures { result ≡ is_callback event.now }
{
    matches!(
        event,
        HalEvent::Shutter { .. }
            | HalEvent::ErrorRequest { .. }
            | HalEvent::ErrorResult { .. }
            | HalEvent::ErrorBuffer { .. }
            | HalEvent::ErrorDevice
            | HalEvent::Results { .. }
    )
}

/// Whether a callback is made after a close returned.
pub fn callback_after_close(event: &HalEvent, table: &HalTable) -> bool
    ensures { result ≡ callback_after_close_at event.now (state_of table.now) }
{
    is_callback(event) && table.device().closed
}

/// Whether a callback is made after the device failed.
pub fn callback_after_failure(event: &HalEvent, table: &HalTable) -> bool
    ensures { result ≡ callback_after_failure_at event.now (state_of table.now) }
{
    is_callback(event) && table.device().failed
}

// ---- shutters

/// Whether the request has its shutter.
fn is_lit(row: Option<&Row>) -> bool
    ensures { result ≡ of_found (λ r. r.shutter) (option_copied row.entry) }
{
    match row {
        Some(row) => row.shutter,
        None => false,
    }
}

/// Whether the request failed.
fn is_failed(row: Option<&Row>) -> bool
    ensures { result ≡ of_found (λ r. r.failed) (option_copied row.entry) }
{
    match row {
        Some(row) => row.failed,
        None => false,
    }
}

/// Whether a shutter comes a second time.
pub fn shutter_twice(event: &HalEvent, table: &HalTable) -> bool
    ensures { result ≡ shutter_twice_at event.now (state_of table.now) }
{
    match event {
        HalEvent::Shutter { frame, .. } => is_lit(table.row_for(*frame)),
        _ => false,
    }
}

/// Whether a shutter comes of a request that failed.
pub fn shutter_after_request_error(event: &HalEvent, table: &HalTable) -> bool
    ensures { result ≡ shutter_after_request_error_at event.now (state_of table.now) }
{
    match event {
        HalEvent::Shutter { frame, .. } => is_failed(table.row_for(*frame)),
        _ => false,
    }
}

// ---- metadata

fn is_absent(pack: Pack) -> bool
    ensures { result ≡ is_absent_pack pack }
{
    matches!(pack, Pack::Absent)
}

/// Whether a result brings nothing.
pub fn empty_result(event: &HalEvent, table: &HalTable) -> bool
    ensures { result ≡ empty_result_at event.now (state_of table.now) }
{
    match event {
        HalEvent::Results {
            pack,
            buffers,
            input,
            ..
        } => is_absent(*pack) && (is_without_buffer(buffers.as_slice()) && !*input),
        _ => false,
    }
}

/// Whether the number isn't one that a pack may have.
fn is_wrong_number(parts: u32, partial: u32, pack: Pack) -> bool
    ensures { result ≡ is_wrong_number parts partial pack }
{
    match pack {
        Pack::Entries => !(0 < partial && partial <= parts),
        Pack::Empty => parts < partial,
        Pack::Absent => partial != 0,
    }
}

/// Whether a result has a number that it may not have.
pub fn partial_number(parts: u32, event: &HalEvent, table: &HalTable) -> bool
    ensures { result ≡ partial_number_at parts event.now (state_of table.now) }
{
    match event {
        HalEvent::Results { partial, pack, .. } => is_wrong_number(parts, *partial, *pack),
        _ => false,
    }
}

fn has_part(number: u32, parts: &[PartRow]) -> bool
    ensures { result ≡ list_any (λ p. (p.number == number) && p.seen) parts.now }
{
    parts.iter().any(|part| part.number == number && part.seen)
}

fn has_seen(number: u32, row: Option<&Row>) -> bool
    ensures { result ≡ of_found (is_row_part_seen number) (option_copied row.entry) }
{
    match row {
        Some(row) => has_part(number, row.parts.as_slice()),
        None => false,
    }
}

fn is_entries(pack: Pack) -> bool
    ensures { result ≡ is_entries pack }
{
    matches!(pack, Pack::Entries)
}

/// Whether a part of metadata comes a second time.
pub fn partial_twice(event: &HalEvent, table: &HalTable) -> bool
    ensures { result ≡ partial_twice_at event.now (state_of table.now) }
{
    match event {
        HalEvent::Results {
            frame,
            partial,
            pack,
            ..
        } => is_entries(*pack) && has_seen(*partial, table.row_for(*frame)),
        _ => false,
    }
}

/// Whether metadata comes of a request that failed.
pub fn metadata_after_request_error(event: &HalEvent, table: &HalTable) -> bool
    ensures { result ≡ metadata_after_request_error_at event.now (state_of table.now) }
{
    match event {
        HalEvent::Results { frame, pack, .. } => {
            is_entries(*pack) && is_failed(table.row_for(*frame))
        }
        _ => false,
    }
}

fn is_part_overtaken(parts: u32, partial: u32, row: Option<&Row>, table: &HalTable) -> bool
    ensures { result ≡ of_found (λ r. ((partial == parts) && not (r.result_error || r.failed))
        && later_at Order.Sound r (state_of table.now)) (option_copied row.entry) }
{
    match row {
        Some(row) => {
            (partial == parts && !(row.result_error || row.failed))
                && is_later(Order::Sound, row, table)
        }
        None => false,
    }
}

/// Whether the last part of a later request stands.
pub fn metadata_order(parts: u32, event: &HalEvent, table: &HalTable) -> bool
    ensures { result ≡ metadata_order_at parts event.now (state_of table.now) }
{
    match event {
        HalEvent::Results {
            frame,
            partial,
            pack,
            ..
        } => {
            is_entries(*pack) && is_part_overtaken(parts, *partial, table.row_for(*frame), table)
        }
        _ => false,
    }
}

// ---- errors

fn is_for(stream: Option<u32>, target: &TargetRow) -> bool
    ensures { result ≡ is_row_for stream target.now }
{
    match stream {
        Some(stream) => target.target.stream == stream,
        None => false,
    }
}

fn has_target_for(stream: Option<u32>, targets: &[TargetRow]) -> bool
    ensures { result ≡ list_any (is_row_for stream) targets.now }
{
    targets.iter().any(|target| is_for(stream, target))
}

fn is_told_of(stream: Option<u32>, row: &Row) -> bool
    ensures { result ≡ is_row_told_of stream row.now }
{
    match stream {
        Some(number) => {
            has_target_for(Some(number), row.targets.as_slice())
                && has_number(number, row.notices.as_slice())
        }
        None => row.unknown_notice,
    }
}

fn was_told_of(stream: Option<u32>, row: Option<&Row>) -> bool
    ensures { result ≡ of_found (is_row_told_of stream) (option_copied row.entry) }
{
    match row {
        Some(row) => is_told_of(stream, row),
        None => false,
    }
}

fn has_result_error(row: Option<&Row>) -> bool
    ensures { result ≡ of_found (λ r. r.result_error) (option_copied row.entry) }
{
    match row {
        Some(row) => row.result_error,
        None => false,
    }
}

/// Whether an error comes a second time.
pub fn error_twice(event: &HalEvent, table: &HalTable) -> bool
    ensures { result ≡ error_twice_at event.now (state_of table.now) }
{
    match event {
        HalEvent::ErrorRequest { frame } => is_failed(table.row_for(*frame)),
        HalEvent::ErrorResult { frame } => has_result_error(table.row_for(*frame)),
        HalEvent::ErrorBuffer { frame, stream } => was_told_of(*stream, table.row_for(*frame)),
        _ => false,
    }
}

/// Whether an error comes of a part of a request that failed.
pub fn error_beside_request_error(event: &HalEvent, table: &HalTable) -> bool
    ensures { result ≡ error_beside_request_error_at event.now (state_of table.now) }
{
    match event {
        HalEvent::ErrorResult { frame } => is_failed(table.row_for(*frame)),
        HalEvent::ErrorBuffer { frame, .. } => is_failed(table.row_for(*frame)),
        _ => false,
    }
}

fn is_begun_well(row: Option<&Row>) -> bool
    ensures { result ≡ of_found (λ r. r.something || r.part_error) (option_copied row.entry) }
{
    match row {
        Some(row) => row.something || row.part_error,
        None => false,
    }
}

/// Whether a request fails of which something good or another error stands.
pub fn request_error_late(event: &HalEvent, table: &HalTable) -> bool
    ensures { result ≡ request_error_late_at event.now (state_of table.now) }
{
    match event {
        HalEvent::ErrorRequest { frame } => is_begun_well(table.row_for(*frame)),
        _ => false,
    }
}

fn has_good_for(stream: Option<u32>, targets: &[TargetRow]) -> bool
    ensures { result ≡ list_any (λ t. is_row_for stream t && t.good) targets.now }
{
    targets
        .iter()
        .any(|target| is_for(stream, target) && target.good)
}

fn is_back_good(stream: Option<u32>, row: Option<&Row>) -> bool
    ensures { result ≡ of_found (is_row_back_good stream) (option_copied row.entry) }
{
    match row {
        Some(row) => has_good_for(stream, row.targets.as_slice()),
        None => false,
    }
}

/// Whether an error comes of a buffer that is back good.
pub fn error_for_good_buffer(event: &HalEvent, table: &HalTable) -> bool
    ensures { result ≡ error_for_good_buffer_at event.now (state_of table.now) }
{
    match event {
        HalEvent::ErrorBuffer { frame, stream } => is_back_good(*stream, table.row_for(*frame)),
        _ => false,
    }
}

fn is_without_target_for(stream: Option<u32>, row: Option<&Row>) -> bool
    ensures { result ≡ of_found (λ r. not (list_any (is_row_for stream) r.targets)) (option_copied row.entry) }
{
    match row {
        Some(row) => !has_target_for(stream, row.targets.as_slice()),
        None => false,
    }
}

/// Whether an error comes of a stream of which the request has no buffer.
pub fn error_unknown_stream(event: &HalEvent, table: &HalTable) -> bool
    ensures { result ≡ error_unknown_stream_at event.now (state_of table.now) }
{
    match event {
        HalEvent::ErrorBuffer { frame, stream } => {
            is_without_target_for(*stream, table.row_for(*frame))
        }
        _ => false,
    }
}
