//! All that is allowed after the entries of a legal trace.
ghost use Rattle.std.specs.Prelude.{◌≡◌, ◌<◌, ◌^◌, ◌+◌, ◌++◌, [], IfOk, IsTrue, OnOk, length, reverse};
ghost use Rattle.cam_types.specs.Profile.{is_profile};
ghost use Rattle.cam_types.specs.Script.{is_valid};
ghost use Rattle.trace_model.specs.Legal.{IsLegal};
ghost use Rattle.trace_model.specs.Numbers.{next_fence};
ghost use Rattle.std.specs.List.{list_all};
ghost use Rattle.allowed_entries.specs.Entries.{allowed_entries};
ghost use Rattle.allowed_entries.specs.Known.{prints};
ghost use Rattle.allowed_entries.specs.Readings.{all_in};

use crate::entry::AllowedEntry;
use crate::fences::{add_lates, add_signals};
use crate::frames::add_frames;
use crate::releases::add_releases;
use crate::service::{add_ends, add_next};
use crate::tables::tables_after;
use cam_types::{NoMemory, Script};
use judge_entries::number::next_fence;
use judge_rows::JudgeTables;
use std::alloc::Global;
use trace_laws::{every_script_is_typed, legal_traces_print};
use trace_model::Entry;

/// Adds all that is due by the tables of a trace that released so many fences.
#[tactic(auto, unfolding(crate::specs::Readings::all_in))]
fn add_all(
    list: &mut Vec<AllowedEntry>,
    script: &Script,
    tables: &JudgeTables,
    fences: u32,
) -> Result<(), NoMemory>
    requires profile { IsTrue (is_profile script.now.profile) }
    requires numbered { tables.now.state.buffers.first + (length tables.now.state.buffers.places + 72) < 2 ^ 32 }
    ensures { OnOk result (list.new.items ≡ list.old.items ++ all_in script.now tables.now.state fences) }
{
    add_frames(list, script, tables)?;
    add_next(list, script, tables)?;
    add_ends(list, script, tables)?;
    add_releases(list, tables)?;
    add_signals(list, tables, fences)?;
    add_lates(list, tables, tables.homes().early_count())
}

/// How many fences the entries of a legal trace released.
fn released(script: &Script, entries: &[Entry]) -> u32
    requires valid { IsTrue (is_valid script.now) }
    requires legal { IsLegal script.now (reverse entries.now) }
    ensures { result ≡ next_fence (reverse entries.now) }
{
    every_script_is_typed(script);
    next_fence(entries) as u32
}

/// Adds the entries that are allowed after those of a legal trace of a valid script, least first.
fn add_allowed(
    list: &mut Vec<AllowedEntry>,
    alloc: Global,
    script: &Script,
    entries: &[Entry],
) -> Result<(), NoMemory>
    requires valid { IsTrue (is_valid script.now) }
    requires legal { IsLegal script.now (reverse entries.now) }
    requires empty { list.old.items ≡ [] }
    ensures { OnOk result (list.new.items ≡ allowed_entries script.now (reverse entries.now)) }
{
    let tables = tables_after(alloc, script, entries)?;
    add_all(list, script, &tables, released(script, entries))
}

/// The entries that are allowed after those of a legal trace of a valid script, least first. The answer is an error
/// only where memory runs out.
pub fn allowed_after(
    alloc: Global,
    script: &Script,
    entries: &[Entry],
) -> Result<Vec<AllowedEntry>, NoMemory>
    requires valid { IsTrue (is_valid script.now) }
    requires legal { IsLegal script.now (reverse entries.now) }
    ensures exact { IfOk result (λ list. list.items ≡ allowed_entries script.now (reverse entries.now)) }
    ensures prints { IfOk result (λ list. IsTrue (list_all prints list.items)) }
{
    legal_traces_print(script);
    let mut list = Vec::new(alloc);
    add_allowed(&mut list, alloc, script, entries)?;
    Ok(list)
}
