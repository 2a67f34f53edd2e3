//! The judge in one pass: each entry is looked at once, over the tables of the state that those before it left.
ghost use Rattle.std.specs.Prelude.{◌≡◌, ◌∷◌, [], true, IfOk, OnOk, IsTrue, reverse};
ghost use Rattle.cam_types.specs.Profile.{is_profile};
ghost use Rattle.cam_types.specs.Script.{is_valid};
ghost use Rattle.trace_laws.specs.Typed.{is_typed};
ghost use Rattle.trace_model.specs.Allowed.{IsAllowed};
ghost use Rattle.trace_model.specs.Legal.{IsLegal};
ghost use Rattle.trace_check.specs.Held.{held, missing_in};
ghost use Rattle.trace_model.specs.Verdict.{IsVerdict, first_missing};

use crate::is_due;
use crate::rule::rule_of;
use cam_types::{NoMemory, Script};
use judge_rows::JudgeTables;
use picture_stages::PictureDigests;
use std::alloc::Global;
use trace_laws::every_script_is_typed;
use trace_model::{Entry, MissingPart, TraceList, Verdict};

/// Notes an entry that is allowed after the entries, whose state the tables hold. The entries aren't read. The answer is
/// an error only where memory runs out.
pub fn note_by(
    script: &Script,
    entries: &[Entry],
    tables: &mut JudgeTables,
    entry: &Entry,
) -> Result<(), NoMemory>
    requires valid { IsTrue (is_valid script.now) }
    requires typed { is_typed script.now ≡ true }
    requires legal { IsLegal script.now (reverse entries.now) }
    requires held { tables.old ≡ held script.now (reverse entries.now) }
    requires allowed { IsAllowed script.now (reverse entries.now) entry.now }
    ensures { OnOk result (tables.new ≡ held script.now (entry.now ∷ reverse entries.now)) }
{
    tables.note(script, entry)
}

/// The first part that the state lacks for being that of a complete run.
fn first_missing_in(script: &Script, tables: &JudgeTables) -> Option<MissingPart>
    ensures { result ≡ missing_in script.now tables.now.state }
{
    if !tables.client().is_all_called(script) {
        Some(MissingPart::Calls)
    } else if !tables.rows().is_empty() {
        Some(MissingPart::Open)
    } else if tables.captures().first_waiting().is_some() {
        Some(MissingPart::Queued)
    } else if !tables.homes().is_all_home() {
        Some(MissingPart::Pool)
    } else if !tables.homes().is_all_signalled() {
        Some(MissingPart::Signal)
    } else {
        None
    }
}

/// The first part that the entries lack. They aren't read.
fn first_missing_by(script: &Script, entries: &[Entry], tables: &JudgeTables) -> Option<MissingPart>
    requires legal { IsLegal script.now (reverse entries.now) }
    requires held { tables.now ≡ held script.now (reverse entries.now) }
    ensures { result ≡ first_missing script.now (reverse entries.now) }
{
    first_missing_in(script, tables)
}

/// Judges entries of which each is allowed: whether they are complete.
fn judge_end_by(script: &Script, entries: &[Entry], tables: &JudgeTables) -> Verdict
    requires legal { IsLegal script.now (reverse entries.now) }
    requires held { tables.now ≡ held script.now (reverse entries.now) }
    ensures { IsVerdict script.now entries.now result }
{
    match first_missing_by(script, entries, tables) {
        Some(part) => Verdict::Incomplete { part },
        None => Verdict::Legal,
    }
}

/// Judges entry by entry, with tables that hold no entry's state yet, and gives back the memory for the pictures'
/// digests.
fn judge_each_by(
    script: &Script,
    trace: &TraceList,
    tables: &mut JudgeTables,
    memory: PictureDigests,
) -> (Result<Verdict, NoMemory>, PictureDigests)
    requires valid { IsTrue (is_valid script.now) }
    requires profile { IsTrue (is_profile script.now.profile) }
    requires held { tables.old ≡ held script.now [] }
    ensures { IfOk result.0 (λ verdict. IsVerdict script.now trace.now.entries verdict) }
{
    every_script_is_typed(script);
    let entries = trace.as_slice();
    let mut memory = memory;
    for position in 0..trace.len() {
        let place = position as usize;
        let past = &entries[..place];
        let entry = &entries[place];
        let (allowed, after) = is_due(script, tables, entry, memory);
        memory = after;
        if !allowed {
            let rule = rule_of(entry);
            return (Ok(Verdict::IllegalAt { position, rule }), memory);
        }
        match note_by(script, past, tables, entry) {
            Ok(()) => {}
            Err(error) => return (Err(error), memory),
        }
    }
    (Ok(judge_end_by(script, entries, tables)), memory)
}

/// Judges entry by entry, with tables that hold no entry's state yet, and takes the memory for the pictures' digests.
fn judge_with_room(
    alloc: Global,
    script: &Script,
    trace: &TraceList,
    tables: &mut JudgeTables,
) -> Result<Verdict, NoMemory>
    requires valid { IsTrue (is_valid script.now) }
    requires profile { IsTrue (is_profile script.now.profile) }
    requires held { tables.old ≡ held script.now [] }
    ensures { IfOk result (λ verdict. IsVerdict script.now trace.now.entries verdict) }
{
    let memory = PictureDigests::with_room(alloc, trace.len() as usize)?;
    let (verdict, _) = judge_each_by(script, trace, tables, memory);
    verdict
}

/// Judges a trace of a valid script entry by entry.
pub(crate) fn check_once(
    alloc: Global,
    script: &Script,
    trace: &TraceList,
) -> Result<Verdict, NoMemory>
    requires valid { IsTrue (is_valid script.now) }
    requires profile { IsTrue (is_profile script.now.profile) }
    ensures { IfOk result (λ verdict. IsVerdict script.now trace.now.entries verdict) }
{
    let mut tables = JudgeTables::new(alloc, script.commands.len())?;
    judge_with_room(alloc, script, trace, &mut tables)
}
