//! The releases that are due.
ghost use Rattle.std.specs.Prelude.{◌≡◌, ◌<◌, ◌^◌, ◌+◌, ◌++◌, OnOk, length};
ghost use Rattle.std.specs.List.{flat_map, range_with_len};
ghost use Rattle.state_facts.specs.Homes.{release_in, stream_in};
ghost use Rattle.allowed_entries.specs.Known.{shown};
ghost use Rattle.allowed_entries.specs.Readings.{releases_in};

use crate::entry::AllowedEntry;
use crate::list::add_due;
use cam_types::{BufferId, Made, NoMemory, StreamIx};
use judge_rows::JudgeTables;
use trace_model::Entry;

/// The release that is due of the buffer with the number. (None has a number past the type's.)
#[tactic(auto, using(crate::proofs::Numbers::none_released))]
fn release_due(tables: &JudgeTables, number: u64) -> Option<Entry>
    requires { tables.now.state.buffers.first + (length tables.now.state.buffers.places + 72) < 2 ^ 32 }
    ensures { result ≡ release_in tables.now.state.buffers number }
{
    if number < 1 << 32 {
        tables.homes().release_due(BufferId(number as u32))
    } else {
        None
    }
}

/// Adds the releases that are due of the buffers.
fn add_made(list: &mut Vec<AllowedEntry>, tables: &JudgeTables, made: Made) -> Result<(), NoMemory>
    requires { tables.now.state.buffers.first + (length tables.now.state.buffers.places + 72) < 2 ^ 32 }
    ensures { OnOk result (list.new.items ≡ list.old.items
        ++ flat_map (λ b. shown (release_in tables.now.state.buffers b)) (range_with_len made.first.0 made.count)) }
{
    let first = u64::from(made.first.0);
    let end = first + u64::from(made.count);
    for number in first..end {
        add_due(list, release_due(tables, number))?;
    }
    Ok(())
}

/// Adds the releases that are due of the stream's buffers.
fn add_stream(
    list: &mut Vec<AllowedEntry>,
    tables: &JudgeTables,
    stream: StreamIx,
) -> Result<(), NoMemory>
    requires { tables.now.state.buffers.first + (length tables.now.state.buffers.places + 72) < 2 ^ 32 }
    ensures { OnOk result (list.new.items ≡ list.old.items
        ++ flat_map (λ b. shown (release_in tables.now.state.buffers b)) (stream_in tables.now.state.buffers stream.0)) }
{
    match tables.homes().made(stream) {
        Some(made) => add_made(list, tables, made),
        None => Ok(()),
    }
}

/// Adds the releases that are due.
#[tactic(auto, unfolding(crate::specs::Readings::releases_in))]
pub(crate) fn add_releases(
    list: &mut Vec<AllowedEntry>,
    tables: &JudgeTables,
) -> Result<(), NoMemory>
    requires { tables.now.state.buffers.first + (length tables.now.state.buffers.places + 72) < 2 ^ 32 }
    ensures { OnOk result (list.new.items ≡ list.old.items ++ releases_in tables.now.state.buffers) }
{
    add_stream(list, tables, StreamIx(0))?;
    add_stream(list, tables, StreamIx(1))?;
    add_stream(list, tables, StreamIx(2))?;
    add_stream(list, tables, StreamIx(3))
}
