//! The targets and parts of a row, after an event.
ghost use Rattle.std.specs.Prelude.{◌≡◌, ◌∷◌, ◌<◌, length, map, IfOk, OnOk};
ghost use Rattle.hal_model.specs.Words.{numbers};
ghost use Rattle.hal_rows.specs.Row.{fresh_part, fresh_target, note_notice, note_part, note_target, with_number, has_number};
ghost use Rattle.hal_row.specs.Given.{buffers_of, notice_in, part_in, with_buffers, with_part};

use crate::buffer::{
    is_back, is_back_failed, is_back_filled, is_back_good, is_back_orderly, is_back_other,
};
use cam_types::{Listing, NoMemory};
use hal_model::{HalEvent, HalTarget, Pack, Returned};
use hal_rows::{PartRow, TargetRow};
use std::alloc::{AllocError, Global};

// ---- targets

/// A target of a request that begins.
fn fresh_target(target: HalTarget) -> TargetRow
    ensures { result ≡ fresh_target target }
{
    TargetRow {
        target,
        back: false,
        filled: false,
        good: false,
        broken: false,
        orderly: false,
        other: false,
    }
}

/// The targets of a request that begins.
pub(crate) fn fresh_targets(
    alloc: Global,
    targets: &Listing<HalTarget>,
) -> Result<Listing<TargetRow>, NoMemory>
    ensures { IfOk result (λ rows. rows ≡ map fresh_target targets.now) }
{
    let _count = targets.len();
    let mut rows = Listing::new(alloc);
    for target in targets.as_slice() {
        rows.push(fresh_target(*target))?;
    }
    Ok(rows)
}

/// A target after a result of its request that brings the buffers.
fn with_buffers(buffers: &[Returned], flushing: bool, row: &TargetRow) -> TargetRow
    ensures { result ≡ with_buffers buffers.now flushing row.now }
{
    let number = row.target.buffer;
    TargetRow {
        target: row.target,
        back: is_back(number, buffers) || row.back,
        filled: is_back_filled(number, buffers) || row.filled,
        good: is_back_good(number, buffers) || row.good,
        broken: is_back_failed(number, buffers) || row.broken,
        orderly: is_back_orderly(flushing, number, buffers) || row.orderly,
        other: is_back_other(flushing, number, buffers) || row.other,
    }
}

/// All of them.
fn all_with_buffers(
    alloc: Global,
    buffers: &[Returned],
    flushing: bool,
    targets: &Listing<TargetRow>,
) -> Result<Listing<TargetRow>, NoMemory>
    ensures { IfOk result (λ rows. rows ≡ map (with_buffers buffers.now flushing) targets.now) }
{
    let _count = targets.len();
    let mut rows = Listing::new(alloc);
    for target in targets.as_slice() {
        rows.push(with_buffers(buffers, flushing, target))?;
    }
    Ok(rows)
}

/// The buffers that an event gives back for a frame.
fn buffers_of<'e>(frame: u32, event: &'e HalEvent) -> &'e [Returned]
    ensures { result.now ≡ buffers_of frame event.now }
{
    match event {
        HalEvent::Results {
            frame: of,
            buffers,
            ..
        } => {
            if *of == frame {
                buffers.as_slice()
            } else {
                &[]
            }
        }
        _ => &[],
    }
}

/// The targets of a request after an event.
#[tactic(auto, using(crate::proofs::Given::targets_noted, crate::proofs::Given::targets_kept))]
pub(crate) fn note_targets(
    alloc: Global,
    frame: u32,
    flushing: bool,
    event: &HalEvent,
    targets: &mut Listing<TargetRow>,
) -> Result<(), NoMemory>
    ensures { OnOk result (targets.new ≡ map (note_target frame flushing event.now) targets.old) }
{
    let buffers = buffers_of(frame, event);
    if !buffers.is_empty() {
        *targets = all_with_buffers(alloc, buffers, flushing, targets)?;
    }
    Ok(())
}

// ---- parts

/// The parts of a request that begins, the last one first.
pub(crate) fn fresh_parts(alloc: Global, parts: u32) -> Result<Listing<PartRow>, NoMemory>
    ensures { IfOk result (λ rows. rows ≡ map fresh_part (numbers parts)) }
{
    let mut rows = Listing::new(alloc);
    let mut number = parts;
    while 0 < number {
        rows.push(PartRow {
            number,
            seen: false,
        })?;
        number -= 1;
    }
    Ok(rows)
}

fn with_part(number: u32, row: &PartRow) -> PartRow
    ensures { result ≡ with_part number row.now }
{
    PartRow {
        number: row.number,
        seen: number == row.number || row.seen,
    }
}

fn all_with_part(
    alloc: Global,
    number: u32,
    parts: &Listing<PartRow>,
) -> Result<Listing<PartRow>, NoMemory>
    ensures { IfOk result (λ rows. rows ≡ map (with_part number) parts.now) }
{
    let _count = parts.len();
    let mut rows = Listing::new(alloc);
    for part in parts.as_slice() {
        rows.push(with_part(number, part))?;
    }
    Ok(rows)
}

/// The number of the part that an event brings of a frame's metadata.
fn part_in(frame: u32, event: &HalEvent) -> Option<u32>
    ensures { result ≡ part_in frame event.now }
{
    match event {
        HalEvent::Results {
            frame: of,
            partial,
            pack: Pack::Entries,
            ..
        } if *of == frame => Some(*partial),
        _ => None,
    }
}

/// The parts of a request after an event.
#[tactic(auto, using(crate::proofs::Given::parts_noted, crate::proofs::Given::parts_kept))]
pub(crate) fn note_parts(
    alloc: Global,
    frame: u32,
    event: &HalEvent,
    parts: &mut Listing<PartRow>,
) -> Result<(), NoMemory>
    ensures { OnOk result (parts.new ≡ map (note_part frame event.now) parts.old) }
{
    if let Some(number) = part_in(frame, event) {
        *parts = all_with_part(alloc, number, parts)?;
    }
    Ok(())
}

// ---- notices

/// Whether the number is among them.
pub fn has_number(number: u32, numbers: &[u32]) -> bool
    ensures { result ≡ has_number number numbers.now }
{
    numbers.contains(&number)
}

/// The number before the others.
fn before_others(
    alloc: Global,
    number: u32,
    numbers: &Listing<u32>,
) -> Result<Listing<u32>, NoMemory>
    requires { length numbers.now < u32.MAX }
    ensures { IfOk result (λ all. all ≡ number ∷ numbers.now) }
{
    let mut all = Listing::new(alloc);
    all.push(number)?;
    for other in numbers.as_slice() {
        all.push(*other)?;
    }
    Ok(all)
}

/// The numbers with one more, where it isn't among them.
fn add_number(alloc: Global, number: u32, numbers: &mut Listing<u32>) -> Result<(), NoMemory>
    ensures { OnOk result (numbers.new ≡ with_number number numbers.old) }
{
    if has_number(number, numbers.as_slice()) {
        return Ok(());
    }
    if numbers.len() == u32::MAX {
        return Err(AllocError);
    }
    *numbers = before_others(alloc, number, numbers)?;
    Ok(())
}

/// The stream that an event names as one of whose buffer of the frame is in error.
fn notice_in(frame: u32, event: &HalEvent) -> Option<u32>
    ensures { result ≡ notice_in frame event.now }
{
    match event {
        HalEvent::ErrorBuffer { frame: of, stream } => { if *of == frame { *stream } else { None } }
        _ => None,
    }
}

/// The streams of a request's errors of buffers after an event, each once.
#[tactic(auto, using(crate::proofs::Given::notice_noted, crate::proofs::Given::notices_kept))]
pub(crate) fn note_notices(
    alloc: Global,
    frame: u32,
    event: &HalEvent,
    notices: &mut Listing<u32>,
) -> Result<(), NoMemory>
    ensures { OnOk result (notices.new ≡ note_notice frame event.now notices.old) }
{
    if let Some(stream) = notice_in(frame, event) {
        add_number(alloc, stream, notices)?;
    }
    Ok(())
}
