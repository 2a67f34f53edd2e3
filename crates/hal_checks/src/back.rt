//! The rules that bind the device in the buffers that come back.
ghost use Rattle.std.specs.Prelude.{◌≡◌, ◌&&◌, ◌||◌, ◌∷◌, [], ◌++◌, List, Option, drop, length, not, option_copied, reverse, take, IfOk, IsTrue};
ghost use Rattle.std.specs.List.{list_any};
ghost use Rattle.hal_model.specs.Callbacks.{is_fence_of, is_of, is_some_listed};
ghost use Rattle.hal_model.specs.Words.{is_number, is_same_number};
ghost use Rattle.hal_rows.specs.Judged.{is_row_announced_for, is_row_astray, is_row_disorderly, is_row_disorderly_for, is_row_overtaken, is_row_overtaken_for, is_row_wrongly_fenced, is_row_wrongly_filled, not_at_device_at, of_found, other_order, row_astray};
ghost use Rattle.hal_checks.specs.Buffers.{has_flaw, has_wrong_buffer, is_buffer_wrong, is_flawed};
ghost use Rattle.hal_table.specs.State.{state_of};

use crate::later::is_later;
use hal_model::{HalEvent, HalFence, HalTarget, Returned};
use hal_row::buffer::{is_absent, is_failed_buffer, is_filled, is_orderly};
use hal_row::has_number;
use hal_row::word::{is_number, is_same_number};
use hal_rows::{Order, Row, TargetRow};
use hal_table::HalTable;

// ---- status and acquire fence

/// What a buffer that comes back may be at fault in by itself.
#[derive(Clone, Copy)]
pub enum BufferFlaw {
    /// Its status is neither ok nor error.
    Unclear,
    /// It carries an acquire fence.
    Acquire,
}

/// Whether the buffer is flawed.
pub fn is_flawed(flaw: BufferFlaw, buffer: &Returned) -> bool
    ensures { result ≡ is_flawed flaw buffer.now }
{
    match flaw {
        BufferFlaw::Unclear => !(is_filled(buffer) || is_failed_buffer(buffer)),
        BufferFlaw::Acquire => buffer.acquire,
    }
}

fn is_some_flawed(flaw: BufferFlaw, buffers: &[Returned]) -> bool
    ensures { result ≡ list_any (is_flawed flaw) buffers.now }
{
    buffers.iter().any(|buffer| is_flawed(flaw, buffer))
}

/// Whether a buffer comes back that is flawed.
pub fn has_flaw(flaw: BufferFlaw, event: &HalEvent, table: &HalTable) -> bool
    ensures { result ≡ has_flaw flaw event.now (state_of table.now) }
{
    match event {
        HalEvent::Results { buffers, .. } => is_some_flawed(flaw, buffers.as_slice()),
        _ => false,
    }
}

// ---- buffers that aren't at the device

fn is_of(target: &HalTarget, buffer: &Returned) -> bool
    ensures { result ≡ is_of target.now buffer.now }
{
    is_number(target.stream, buffer.stream) && is_number(target.buffer, buffer.buffer)
}

fn is_out_as(buffer: &Returned, target: &TargetRow) -> bool
    ensures { result ≡ (is_of target.now.target buffer.now && not target.now.back) }
{
    is_of(&target.target, buffer) && !target.back
}

fn is_at_device(targets: &[TargetRow], buffer: &Returned) -> bool
    ensures { result ≡ list_any (λ t. is_of t.target buffer.now && not t.back) targets.now }
{
    targets.iter().any(|target| is_out_as(buffer, target))
}

fn is_same_buffer(a: &Returned, b: &Returned) -> bool
    ensures { result ≡ is_same_number a.now.buffer b.now.buffer }
{
    is_same_number(a.buffer, b.buffer)
}

/// Whether a buffer is one of the earlier ones.
fn is_earlier(earlier: &[Returned], buffer: &Returned) -> bool
    ensures { result ≡ list_any (λ q. is_same_number q.buffer buffer.now.buffer) earlier.now }
{
    earlier.iter().any(|other| is_same_buffer(other, buffer))
}

/// Whether the buffer isn't at the device, or stands before in the same result.
#[tactic(auto, using(crate::proofs::Astray::any_turned))]
pub fn is_astray(row: &Row, earlier: &[Returned], buffer: &Returned) -> bool
    ensures { result ≡ is_row_astray row.now (reverse earlier.now) buffer.now }
{
    !is_at_device(row.targets.as_slice(), buffer) || is_earlier(earlier, buffer)
}

fn is_some_astray(row: &Row, buffers: &[Returned]) -> bool
    ensures { result ≡ is_some_listed (row_astray row.now [] buffers.now) }
{
    for (place, buffer) in buffers.iter().enumerate() {
        if is_astray(row, &buffers[..place], buffer) {
            return true;
        }
    }
    false
}

fn has_astray(buffers: &[Returned], row: Option<&Row>) -> bool
    ensures { result ≡ of_found (λ r. is_some_listed (row_astray r [] buffers.now)) (option_copied row.entry) }
{
    match row {
        Some(row) => is_some_astray(row, buffers),
        None => false,
    }
}

/// Whether a buffer comes back that isn't at the device.
pub fn not_at_device(event: &HalEvent, table: &HalTable) -> bool
    ensures { result ≡ not_at_device_at event.now (state_of table.now) }
{
    match event {
        HalEvent::Results { frame, buffers, .. } => {
            has_astray(buffers.as_slice(), table.row_for(*frame))
        }
        _ => false,
    }
}

// ---- order

fn is_overtaken_for(stream: Option<u32>, row: &Row, table: &HalTable) -> bool
    ensures { result ≡ is_row_overtaken_for (state_of table.now) row.now stream }
{
    match stream {
        Some(stream) => is_later(Order::Filled(stream), row, table),
        None => false,
    }
}

/// Whether the buffer is ok, and an ok one of a later request is back.
fn is_overtaken(row: &Row, table: &HalTable, buffer: &Returned) -> bool
    ensures { result ≡ is_row_overtaken (state_of table.now) row.now buffer.now }
{
    is_filled(buffer) && is_overtaken_for(buffer.stream, row, table)
}

fn other_order(buffer: &Returned, stream: u32) -> Order
    ensures { result ≡ other_order buffer.now stream }
{
    if is_filled(buffer) {
        Order::Other(stream)
    } else {
        Order::Orderly(stream)
    }
}

fn is_disorderly_for(buffer: &Returned, row: &Row, table: &HalTable) -> bool
    ensures { result ≡ is_row_disorderly_for (state_of table.now) row.now buffer.now buffer.now.stream }
{
    match buffer.stream {
        Some(stream) => is_later(other_order(buffer, stream), row, table),
        None => false,
    }
}

/// Whether the buffer comes out of the strict order.
fn is_disorderly(row: &Row, table: &HalTable, buffer: &Returned) -> bool
    ensures { result ≡ is_row_disorderly (state_of table.now) row.now buffer.now }
{
    is_orderly(table.device().flush.out, buffer) && is_disorderly_for(buffer, row, table)
}

// ---- buffers after an error

fn is_announced_for(row: &Row, stream: Option<u32>) -> bool
    ensures { result ≡ is_row_announced_for row.now stream }
{
    match stream {
        Some(stream) => has_number(stream, row.notices.as_slice()),
        None => false,
    }
}

/// Whether the buffer is ok that was said to be in error.
fn is_wrongly_filled(row: &Row, buffer: &Returned) -> bool
    ensures { result ≡ is_row_wrongly_filled row.now buffer.now }
{
    is_filled(buffer) && (row.failed || is_announced_for(row, buffer.stream))
}

// ---- release fences

fn is_fence_of(release: HalFence, acquire: Option<u32>) -> bool
    ensures { result ≡ is_fence_of release acquire }
{
    match release {
        HalFence::Absent => true,
        HalFence::Number(release) => is_number(release, acquire),
        HalFence::Foreign => false,
    }
}

fn is_fenced_as(buffer: &Returned, target: &TargetRow) -> bool
    ensures { result ≡ (is_number target.now.target.buffer buffer.now.buffer
        && is_fence_of buffer.now.release target.now.target.fence) }
{
    is_number(target.target.buffer, buffer.buffer)
        && is_fence_of(buffer.release, target.target.fence)
}

fn has_own_fence(targets: &[TargetRow], buffer: &Returned) -> bool
    ensures { result ≡ list_any (λ t. is_number t.target.buffer buffer.now.buffer
        && is_fence_of buffer.now.release t.target.fence) targets.now }
{
    targets.iter().any(|target| is_fenced_as(buffer, target))
}

/// Whether the failed buffer has a release fence other than its acquire fence.
fn is_wrongly_fenced(row: &Row, buffer: &Returned) -> bool
    ensures { result ≡ is_row_wrongly_fenced row.now buffer.now }
{
    is_failed_buffer(buffer)
        && (!is_absent(buffer.release) && !has_own_fence(row.targets.as_slice(), buffer))
}

// ---- what a buffer is at fault in beside its request

/// What a buffer that comes back may be at fault in beside its request.
#[derive(Clone, Copy)]
pub enum BufferFault {
    /// It is ok, and an ok one of a later request is back.
    Overtaken,
    /// It comes out of the strict order.
    Disorderly,
    /// It is ok, and was said to be in error.
    Filled,
    /// It failed, and has a release fence other than its acquire fence.
    Fenced,
}

/// Whether the buffer is at fault.
pub fn is_buffer_wrong(fault: BufferFault, row: &Row, table: &HalTable, buffer: &Returned) -> bool
    ensures { result ≡ is_buffer_wrong fault (state_of table.now) row.now buffer.now }
{
    match fault {
        BufferFault::Overtaken => is_overtaken(row, table, buffer),
        BufferFault::Disorderly => is_disorderly(row, table, buffer),
        BufferFault::Filled => is_wrongly_filled(row, buffer),
        BufferFault::Fenced => is_wrongly_fenced(row, buffer),
    }
}

fn is_some_buffer_wrong(
    fault: BufferFault,
    row: &Row,
    table: &HalTable,
    buffers: &[Returned],
) -> bool
    ensures { result ≡ list_any (is_buffer_wrong fault (state_of table.now) row.now) buffers.now }
{
    buffers
        .iter()
        .any(|buffer| is_buffer_wrong(fault, row, table, buffer))
}

fn has_buffer_wrong(
    fault: BufferFault,
    buffers: &[Returned],
    row: Option<&Row>,
    table: &HalTable,
) -> bool
    ensures { result ≡ of_found (λ r. list_any (is_buffer_wrong fault (state_of table.now) r) buffers.now)
        (option_copied row.entry) }
{
    match row {
        Some(row) => is_some_buffer_wrong(fault, row, table, buffers),
        None => false,
    }
}

/// Whether a buffer comes back that is at fault.
pub fn has_wrong_buffer(fault: BufferFault, event: &HalEvent, table: &HalTable) -> bool
    ensures { result ≡ has_wrong_buffer fault event.now (state_of table.now) }
{
    match event {
        HalEvent::Results { frame, buffers, .. } => has_buffer_wrong(
            fault,
            buffers.as_slice(),
            table.row_for(*frame),
            table,
        ),
        _ => false,
    }
}
