//! A trace with an entry changed.

use super::altered::altered;
use cam_types::NoMemory;
use std::alloc::Global;
use trace_model::{Entry, TraceList};

/// What is done to a trace at a place.
#[derive(Clone, Copy)]
pub enum Change {
    LeftOut,
    Doubled,
    /// With the entry behind it.
    Exchanged,
    /// By the alteration of this number.
    Altered(u8),
}

/// Appends entries, as many as a trace can hold.
fn add_all(trace: &mut TraceList, entries: &[Entry]) -> Result<(), NoMemory> {
    for entry in entries {
        if trace.len() < u32::MAX {
            trace.push(*entry)?;
        }
    }
    Ok(())
}

/// The trace with the change at the place. None where there is no entry at it or none to exchange it with, or where the
/// entry has no such alteration.
pub fn changed(
    alloc: Global,
    trace: &TraceList,
    at: usize,
    change: Change,
) -> Result<Option<TraceList>, NoMemory> {
    let Some((before, rest)) = trace.as_slice().split_at_checked(at) else {
        return Ok(None);
    };
    let mut other = TraceList::new(alloc);
    other.profile = trace.profile;
    add_all(&mut other, before)?;
    match (change, rest) {
        (Change::LeftOut, [_, behind @ ..]) => add_all(&mut other, behind)?,
        (Change::Doubled, [entry, ..]) => {
            add_all(&mut other, &[*entry])?;
            add_all(&mut other, rest)?;
        }
        (Change::Exchanged, [entry, next, behind @ ..]) => {
            add_all(&mut other, &[*next, *entry])?;
            add_all(&mut other, behind)?;
        }
        (Change::Altered(number), [entry, behind @ ..]) => {
            let Some(entry) = altered(*entry, number) else {
                return Ok(None);
            };
            add_all(&mut other, &[entry])?;
            add_all(&mut other, behind)?;
        }
        _ => return Ok(None),
    }
    Ok(Some(other))
}
