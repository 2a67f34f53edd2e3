//! A verdict in words.
ghost use Rattle.std.specs.Prelude.{◌≡◌, ◌+◌, ◌≤◌, IfOk, IsTrue, length, reverse, take};
ghost use Rattle.std.specs.List.{list_all};
ghost use Rattle.cam_types.specs.Script.{is_valid};
ghost use Rattle.explain_call.specs.Explaining.{explained, illegal_at};
ghost use Rattle.explain_call.specs.Explained.{illegal_text};
ghost use Rattle.rule_conditions.specs.Conditions.{first_failed};
ghost use Rattle.trace_model.specs.Verdict.{IsIllegalAt, IsVerdict};
ghost use Rattle.trace_model.specs.Allowed.{IsAllowed};
ghost use Rattle.trace_model.specs.Legal.{IsLegal};
ghost use Rattle.trace_model.specs.Printable.{is_printable};

use crate::judged::Judged;
use crate::{illegal_text, incomplete_text, legal_text};
use allowed_entries::allowed_after;
use cam_types::{NoMemory, Script};
use rule_conditions::first_failed;
use std::alloc::Global;
use trace_model::{Entry, RuleName, TraceList, Verdict};
use trace_text::Printer;
use wrong_words::LINE_LIMIT;

/// The text of an entry that isn't allowed behind those before it, with the first condition that it doesn't meet and
/// what is allowed in its place. The line of the first one before has the number.
fn illegal_entry(
    alloc: Global,
    printer: &mut Printer,
    script: &Script,
    part: &[u8],
    rule: RuleName,
    number: u64,
    position: u32,
    before: &[Entry],
    faulty: &Entry,
) -> Result<Vec<u8>, NoMemory>
    requires valid { IsTrue (is_valid script.now) }
    requires legal { IsLegal script.now (reverse before.now) }
    requires refused { ¬ IsAllowed script.now (reverse before.now) faulty.now }
    requires part { length part.now ≤ 134217728 }
    requires printable { IsTrue (list_all is_printable before.now) }
    requires shown { IsTrue (is_printable faulty.now) }
    requires numbers { number + length before.now ≤ LINE_LIMIT }
    requires small { number ≤ 536870912 }
    ensures { IfOk result (λ text. text.items ≡ illegal_text script.now part.now rule number position before.now faulty.now
        (first_failed script.now (reverse before.now) faulty.now)) }
{
    let failed = first_failed(script, before, faulty);
    let allowed = allowed_after(alloc, script, before)?;
    illegal_text(
        alloc,
        printer,
        script,
        part,
        rule,
        number,
        position,
        before,
        faulty,
        failed,
        allowed.as_slice(),
    )
}

/// The entries before the position.
#[tactic(auto, using(crate::proofs::Taken::all_taken))]
fn before_of(entries: &[Entry], position: u32) -> &[Entry]
    requires { IsTrue (list_all is_printable entries.now) }
    ensures value { result.now ≡ take position entries.now }
    ensures printable { IsTrue (list_all is_printable result.now) }
    ensures short { length result.now ≤ length entries.now }
{
    let place = position as usize;
    if place < entries.len() {
        &entries[..place]
    } else {
        entries
    }
}

/// The text of the entry at the position, which isn't allowed behind those before it. The line of the first one has the
/// number.
fn illegal_at(
    alloc: Global,
    printer: &mut Printer,
    script: &Script,
    part: &[u8],
    trace: &TraceList,
    rule: RuleName,
    number: u64,
    position: u32,
) -> Result<Vec<u8>, NoMemory>
    requires valid { IsTrue (is_valid script.now) }
    requires judged { IsIllegalAt script.now trace.now.entries position rule }
    requires part { length part.now ≤ 134217728 }
    requires printable { IsTrue (list_all is_printable trace.now.entries) }
    requires numbers { number + length trace.now.entries ≤ LINE_LIMIT }
    requires small { number ≤ 536870912 }
    ensures { IfOk result (λ text. text.items ≡ illegal_at script.now part.now rule number position trace.now.entries) }
{
    let before = before_of(trace.as_slice(), position);
    match trace.get(position) {
        Some(faulty) => illegal_entry(
            alloc, printer, script, part, rule, number, position, before, faulty,
        ),
        None => Ok(Vec::new(alloc)),
    }
}

/// The text of the verdict on a trace, whose first entry's line has the number.
pub fn explain_verdict(
    alloc: Global,
    script: &Script,
    part: &[u8],
    trace: &TraceList,
    number: u64,
    judged: Judged,
) -> Result<Vec<u8>, NoMemory>
    requires valid { IsTrue (is_valid script.now) }
    requires judged { IsVerdict script.now trace.now.entries judged.verdict }
    requires part { length part.now ≤ 134217728 }
    requires printable { IsTrue (list_all is_printable trace.now.entries) }
    requires numbers { number + length trace.now.entries ≤ LINE_LIMIT }
    requires small { number ≤ 536870912 }
    ensures { IfOk result
        (λ text. text.items ≡ explained script.now part.now judged.moves number trace.now.entries judged.verdict) }
{
    let mut printer = Printer::new(alloc, None)?;
    match judged.verdict {
        Verdict::Legal => legal_text(
            alloc,
            &mut printer,
            script,
            part,
            judged.moves,
            trace.as_slice(),
            number,
        ),
        Verdict::IllegalAt { position, rule } => illegal_at(
            alloc,
            &mut printer,
            script,
            part,
            trace,
            rule,
            number,
            position,
        ),
        Verdict::Incomplete { part: missing } => incomplete_text(
            alloc,
            &mut printer,
            script,
            trace.as_slice(),
            number,
            missing,
        ),
    }
}
