//! What an event is at fault in that breaks a rule.
ghost use Rattle.std.specs.Prelude.{◌≡◌, ◌==◌, ◌&&◌, ◌∷◌, [], ◌++◌, None, Some, filter, map, option_copied, IfOk, OnOk};
ghost use Rattle.hal_model.specs.Rules.{at, at_buffers, at_frames, at_stream, at_targets, plain};
ghost use Rattle.hal_model.specs.Device.{is_idle_most, is_unnamed};
ghost use Rattle.hal_rows.specs.Judged.{at_rows, at_target_rows, is_row_silent, is_target_unknown_in, row_astray, row_silences};
ghost use Rattle.hal_rows.specs.Row.{is_row_unannounced_at};
ghost use Rattle.hal_checks.specs.Meant.{is_meant};
ghost use Rattle.hal_judge.specs.Meant.{frame_of, silence_of};
ghost use Rattle.hal_checks.specs.Buffers.{is_buffer_wrong, is_flawed};
ghost use Rattle.hal_checks.specs.Targets.{is_target_wrong};
ghost use Rattle.hal_table.specs.State.{state_of};

use cam_types::NoMemory;
use hal_checks::back::{BufferFault, BufferFlaw, is_astray, is_buffer_wrong, is_flawed};
use hal_checks::framework::{TargetFault, is_target_wrong};
use hal_checks::meant::{Which, is_meant, is_silent};
use hal_checks::stream::{is_idle_most, is_target_unknown_in, is_unnamed};
use hal_model::{Fault, HalEvent, HalStream, HalTarget, Returned, StreamMax};
use hal_row::row::is_unannounced_at;
use hal_rows::{Row, TargetRow};
use hal_table::HalTable;
use std::alloc::Global;

// ---- one fault

/// Neither a request nor a stream.
pub(crate) fn plain() -> Fault
    ensures { result ≡ plain }
{
    Fault {
        frame: None,
        stream: None,
    }
}

/// A request, and the stream or none.
pub(crate) fn at(frame: u32, stream: Option<u32>) -> Fault
    ensures { result ≡ at frame stream }
{
    Fault {
        frame: Some(frame),
        stream,
    }
}

fn at_stream(stream: u32) -> Fault
    ensures { result ≡ at_stream stream }
{
    Fault {
        frame: None,
        stream: Some(stream),
    }
}

/// That one alone.
pub(crate) fn one(alloc: Global, fault: Fault) -> Result<Vec<Fault>, NoMemory>
    ensures { IfOk result (λ faults. faults.items ≡ fault ∷ []) }
{
    let mut faults = Vec::new(alloc);
    faults.push(fault)?;
    Ok(faults)
}

// ---- rows

/// Adds the number of a request, where it is meant.
fn add_meant(
    which: Which,
    event: &HalEvent,
    row: &Row,
    frames: &mut Vec<u32>,
) -> Result<(), NoMemory>
    ensures { OnOk result (frames.new.items
        ≡ frames.old.items ++ map frame_of (filter (is_meant which event.now) (row.now ∷ []))) }
{
    if is_meant(which, event, row) {
        frames.push(row.frame)?;
    }
    Ok(())
}

/// The numbers of the requests that are meant.
pub(crate) fn frames_meant(
    alloc: Global,
    which: Which,
    event: &HalEvent,
    table: &HalTable,
) -> Result<Vec<u32>, NoMemory>
    ensures { IfOk result (λ frames. frames.items
        ≡ map frame_of (filter (is_meant which event.now) (state_of table.now).rows)) }
{
    let mut frames = Vec::new(alloc);
    for (_, row) in table.rows() {
        add_meant(which, event, row, &mut frames)?;
    }
    Ok(frames)
}

fn at_frames(alloc: Global, frames: &[u32]) -> Result<Vec<Fault>, NoMemory>
    ensures { IfOk result (λ faults. faults.items ≡ at_frames frames.now) }
{
    frames.iter().map(|frame| at(*frame, None)).collect(alloc)
}

/// The requests that are meant, each as a fault.
#[tactic(auto, using(crate::proofs::Faults::rows_told))]
pub(crate) fn rows_meant(
    alloc: Global,
    which: Which,
    event: &HalEvent,
    table: &HalTable,
) -> Result<Vec<Fault>, NoMemory>
    ensures { IfOk result (λ faults. faults.items
        ≡ at_rows (filter (is_meant which event.now) (state_of table.now).rows)) }
{
    let frames = frames_meant(alloc, which, event, table)?;
    at_frames(alloc, frames.as_slice())
}

fn at_target_row(frame: u32, target: &TargetRow) -> Fault
    ensures { result ≡ at frame (Some target.now.target.stream) }
{
    at(frame, Some(target.target.stream))
}

fn targets_silent(alloc: Global, row: &Row, targets: &[TargetRow]) -> Result<Vec<Fault>, NoMemory>
    ensures { IfOk result (λ faults. faults.items ≡
        at_target_rows row.now.frame (filter (is_row_unannounced_at row.now) targets.now)) }
{
    let mut faults = Vec::new(alloc);
    for target in targets {
        if is_unannounced_at(row, target) {
            faults.push(at_target_row(row.frame, target))?;
        }
    }
    Ok(faults)
}

/// Adds the buffers in error without their notices of a request, where one is told of it.
fn add_silent(
    alloc: Global,
    event: &HalEvent,
    row: &Row,
    faults: &mut Vec<Fault>,
) -> Result<(), NoMemory>
    ensures { OnOk result (faults.new.items ≡ faults.old.items ++ silence_of event.now row.now) }
{
    if is_silent(event, row) {
        let more = targets_silent(alloc, row, row.targets.as_slice())?;
        faults.extend_from_slice(more.as_slice())?;
    }
    Ok(())
}

/// The buffers in error without their notices of those requests of which one is told.
pub(crate) fn rows_silent(
    alloc: Global,
    event: &HalEvent,
    table: &HalTable,
) -> Result<Vec<Fault>, NoMemory>
    ensures { IfOk result (λ faults. faults.items
        ≡ row_silences (filter (is_row_silent event.now) (state_of table.now).rows)) }
{
    let mut faults = Vec::new(alloc);
    for (_, row) in table.rows() {
        add_silent(alloc, event, row, &mut faults)?;
    }
    Ok(faults)
}

/// The targets of a request that are of a stream that isn't configured.
pub(crate) fn target_rows_unknown(
    alloc: Global,
    frame: u32,
    streams: &[HalStream],
    targets: &[TargetRow],
) -> Result<Vec<Fault>, NoMemory>
    ensures { IfOk result (λ faults. faults.items ≡
        at_target_rows frame (filter (is_target_unknown_in streams.now) targets.now)) }
{
    let mut faults = Vec::new(alloc);
    for target in targets {
        if is_target_unknown_in(streams, target) {
            faults.push(at_target_row(frame, target))?;
        }
    }
    Ok(faults)
}

// ---- targets of a request that begins

fn at_target(frame: u32, target: &HalTarget) -> Fault
    ensures { result ≡ at frame (Some target.now.stream) }
{
    at(frame, Some(target.stream))
}

/// The targets that are at fault, as faults of the request.
pub(crate) fn targets_wrong(
    alloc: Global,
    fault: TargetFault,
    frame: u32,
    targets: &[HalTarget],
    table: &HalTable,
) -> Result<Vec<Fault>, NoMemory>
    ensures { IfOk result (λ faults. faults.items ≡
        at_targets frame (filter (is_target_wrong fault targets.now (state_of table.now)) targets.now)) }
{
    let mut faults = Vec::new(alloc);
    for target in targets {
        if is_target_wrong(fault, targets, table, target) {
            faults.push(at_target(frame, target))?;
        }
    }
    Ok(faults)
}

// ---- streams of a configuration

fn at_most(most: &StreamMax) -> Fault
    ensures { result ≡ at_stream most.now.stream }
{
    at_stream(most.stream)
}

fn most_idle(alloc: Global, asked: &[HalStream], most: &[StreamMax]) -> Result<Vec<Fault>, NoMemory>
    ensures { IfOk result (λ faults. faults.items ≡
        map (λ x. at_stream x.stream) (filter (is_idle_most asked.now) most.now)) }
{
    let mut faults = Vec::new(alloc);
    for named in most {
        if is_idle_most(asked, named) {
            faults.push(at_most(named))?;
        }
    }
    Ok(faults)
}

fn at_asked(stream: &HalStream) -> Fault
    ensures { result ≡ at_stream stream.now.stream }
{
    at_stream(stream.stream)
}

fn streams_unnamed(
    alloc: Global,
    asked: &[HalStream],
    most: &[StreamMax],
) -> Result<Vec<Fault>, NoMemory>
    ensures { IfOk result (λ faults. faults.items ≡
        map (λ x. at_stream x.stream) (filter (is_unnamed most.now) asked.now)) }
{
    let mut faults = Vec::new(alloc);
    for stream in asked {
        if is_unnamed(most, stream) {
            faults.push(at_asked(stream))?;
        }
    }
    Ok(faults)
}

/// The streams that have no number of buffers, and those of a number that isn't one.
#[tactic(auto, using(crate::proofs::Faults::streams_told))]
pub(crate) fn streams_wrong(
    alloc: Global,
    asked: &[HalStream],
    most: &[StreamMax],
) -> Result<Vec<Fault>, NoMemory>
    ensures { IfOk result (λ faults. faults.items ≡ map at_stream
        (map (λ x. x.stream) (filter (is_idle_most asked.now) most.now)
        ++ map (λ x. x.stream) (filter (is_unnamed most.now) asked.now))) }
{
    let mut faults = most_idle(alloc, asked, most)?;
    let more = streams_unnamed(alloc, asked, most)?;
    faults.extend_from_slice(more.as_slice())?;
    Ok(faults)
}

// ---- buffers that come back

fn at_buffer(frame: u32, buffer: &Returned) -> Fault
    ensures { result ≡ at frame buffer.now.stream }
{
    at(frame, buffer.stream)
}

/// The buffers that are flawed.
pub(crate) fn buffers_flawed(
    alloc: Global,
    flaw: BufferFlaw,
    frame: u32,
    buffers: &[Returned],
) -> Result<Vec<Fault>, NoMemory>
    ensures { IfOk result (λ faults. faults.items ≡ at_buffers frame (filter (is_flawed flaw) buffers.now)) }
{
    let mut faults = Vec::new(alloc);
    for buffer in buffers {
        if is_flawed(flaw, buffer) {
            faults.push(at_buffer(frame, buffer))?;
        }
    }
    Ok(faults)
}

/// The buffers that are at fault.
pub(crate) fn buffers_wrong(
    alloc: Global,
    fault: BufferFault,
    frame: u32,
    row: &Row,
    table: &HalTable,
    buffers: &[Returned],
) -> Result<Vec<Fault>, NoMemory>
    ensures { IfOk result (λ faults. faults.items ≡
        at_buffers frame (filter (is_buffer_wrong fault (state_of table.now) row.now) buffers.now)) }
{
    let mut faults = Vec::new(alloc);
    for buffer in buffers {
        if is_buffer_wrong(fault, row, table, buffer) {
            faults.push(at_buffer(frame, buffer))?;
        }
    }
    Ok(faults)
}

/// The buffers that aren't at the device, or stand before in the same result.
pub(crate) fn buffers_astray(
    alloc: Global,
    frame: u32,
    row: &Row,
    buffers: &[Returned],
) -> Result<Vec<Fault>, NoMemory>
    ensures { IfOk result (λ faults. faults.items ≡ map (at frame) (row_astray row.now [] buffers.now)) }
{
    let mut faults = Vec::new(alloc);
    for (place, buffer) in buffers.iter().enumerate() {
        if is_astray(row, &buffers[..place], buffer) {
            faults.push(at_buffer(frame, buffer))?;
        }
    }
    Ok(faults)
}
