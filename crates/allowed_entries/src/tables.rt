//! The state of a legal trace, as tables.
ghost use Rattle.std.specs.Prelude.{◌≡◌, [], true, IfOk, IsTrue, OnOk, reverse};
ghost use Rattle.cam_types.specs.Script.{is_valid};
ghost use Rattle.trace_laws.specs.Typed.{is_typed};
ghost use Rattle.trace_check.specs.Held.{held};
ghost use Rattle.trace_model.specs.Legal.{IsLegal};

use cam_types::{NoMemory, Script};
use judge_rows::JudgeTables;
use std::alloc::Global;
use trace_check::note_by;
use trace_laws::every_script_is_typed;
use trace_model::Entry;

/// Notes entries of which each is allowed after those before it, in tables that hold no entry's state yet.
fn note_each(script: &Script, entries: &[Entry], tables: &mut JudgeTables) -> Result<(), NoMemory>
    requires valid { IsTrue (is_valid script.now) }
    requires typed { is_typed script.now ≡ true }
    requires legal { IsLegal script.now (reverse entries.now) }
    requires held { tables.old ≡ held script.now [] }
    ensures { OnOk result (tables.new ≡ held script.now (reverse entries.now)) }
{
    for place in 0..entries.len() {
        note_by(script, &entries[..place], tables, &entries[place])?;
    }
    Ok(())
}

/// The tables of the state of entries of which each is allowed after those before it.
pub(crate) fn tables_after(
    alloc: Global,
    script: &Script,
    entries: &[Entry],
) -> Result<JudgeTables, NoMemory>
    requires valid { IsTrue (is_valid script.now) }
    requires legal { IsLegal script.now (reverse entries.now) }
    ensures { IfOk result (λ tables. tables ≡ held script.now (reverse entries.now)) }
{
    every_script_is_typed(script);
    let mut tables = JudgeTables::new(alloc, script.commands.len())?;
    note_each(script, entries, &mut tables)?;
    Ok(tables)
}
