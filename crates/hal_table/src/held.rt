//! How many buffers requests hold: by the number of the buffer, and by that of the stream.
ghost use Rattle.std.specs.Prelude.{◌≡◌, ◌==◌, ◌+◌, ◌-◌, ℕ, OnOk, if◌then◌else◌};
ghost use Rattle.hal_rows.specs.Judged.{is_holding, is_holding_for};
ghost use Rattle.hal_table.specs.Index.{IsAdded, IsTaken, count_in};

use cam_types::NoMemory;
use hal_rows::TargetRow;
use std::alloc::{AllocError, Global};
use std::collections::HashMap;

/// The counts. What has none has no entry.
#[derive(Drop)]
pub struct Held {
    pub buffers: HashMap<u32, u64>,
    pub streams: HashMap<u32, u64>,
}

// ---- one number

fn count_of(counts: &HashMap<u32, u64>, number: u32) -> u64
    ensures { result ≡ count_in counts.now.entries number }
{
    match counts.get(&number) {
        Some(count) => *count,
        None => 0,
    }
}

/// Counts one more. An error also where the count is too great to be kept.
fn add_one(counts: &mut HashMap<u32, u64>, number: u32) -> Result<(), NoMemory>
    ensures { OnOk result ((n : ℕ) → count_in counts.new.entries n
        ≡ count_in counts.old.entries n + (if number == n then 1 else 0)) }
{
    let count = count_of(counts, number);
    if count == u64::MAX {
        return Err(AllocError);
    }
    counts.insert(number, count + 1)?;
    Ok(())
}

/// Counts one less.
fn take_one(counts: &mut HashMap<u32, u64>, number: u32) -> Result<(), NoMemory>
    ensures { OnOk result ((n : ℕ) → count_in counts.new.entries n
        ≡ count_in counts.old.entries n - (if number == n then 1 else 0)) }
{
    let count = count_of(counts, number);
    if count <= 1 {
        counts.remove(&number);
        return Ok(());
    }
    counts.insert(number, count - 1)?;
    Ok(())
}

// ---- targets

impl Held {
    /// Nothing is held.
    pub(crate) fn new(alloc: Global) -> Held
        ensures buffers { (n : ℕ) → count_in result.buffers.entries n ≡ 0 }
        ensures streams { (n : ℕ) → count_in result.streams.entries n ≡ 0 }
    {
        Held {
            buffers: HashMap::new(alloc),
            streams: HashMap::new(alloc),
        }
    }

    /// How often the buffer is held.
    pub(crate) fn of_buffer(&self, buffer: u32) -> u64
        ensures { result ≡ count_in self.now.buffers.entries buffer }
    {
        count_of(&self.buffers, buffer)
    }

    /// How many buffers of the stream are held.
    pub(crate) fn of_stream(&self, stream: u32) -> u64
        ensures { result ≡ count_in self.now.streams.entries stream }
    {
        count_of(&self.streams, stream)
    }
}

fn add_target(held: &mut Held, target: &TargetRow) -> Result<(), NoMemory>
    ensures buffers { OnOk result ((b : ℕ) → count_in held.new.buffers.entries b
        ≡ count_in held.old.buffers.entries b + (if is_holding b target.now then 1 else 0)) }
    ensures streams { OnOk result ((s : ℕ) → count_in held.new.streams.entries s
        ≡ count_in held.old.streams.entries s + (if is_holding_for s target.now then 1 else 0)) }
{
    if target.back {
        return Ok(());
    }
    add_one(&mut held.buffers, target.target.buffer)?;
    add_one(&mut held.streams, target.target.stream)?;
    Ok(())
}

fn take_target(held: &mut Held, target: &TargetRow) -> Result<(), NoMemory>
    ensures buffers { OnOk result ((b : ℕ) → count_in held.new.buffers.entries b
        ≡ count_in held.old.buffers.entries b - (if is_holding b target.now then 1 else 0)) }
    ensures streams { OnOk result ((s : ℕ) → count_in held.new.streams.entries s
        ≡ count_in held.old.streams.entries s - (if is_holding_for s target.now then 1 else 0)) }
{
    if target.back {
        return Ok(());
    }
    take_one(&mut held.buffers, target.target.buffer)?;
    take_one(&mut held.streams, target.target.stream)?;
    Ok(())
}

/// Counts the targets that are held.
pub(crate) fn add_targets(held: &mut Held, targets: &[TargetRow]) -> Result<(), NoMemory>
    ensures { OnOk result (IsAdded targets.now held.old held.new) }
{
    for target in targets {
        add_target(held, target)?;
    }
    Ok(())
}

/// Counts them no more.
pub(crate) fn take_targets(held: &mut Held, targets: &[TargetRow]) -> Result<(), NoMemory>
    ensures { OnOk result (IsTaken targets.now held.old held.new) }
{
    for target in targets {
        take_target(held, target)?;
    }
    Ok(())
}
