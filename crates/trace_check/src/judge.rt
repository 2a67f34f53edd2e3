//! The judge.
ghost use Rattle.std.specs.Prelude.{◌≡◌, IfOk, reverse};
ghost use Rattle.run_model.specs.Lawful.{KeepsLaws};
ghost use Rattle.trace_model.specs.Verdict.{IsVerdict};
ghost use Rattle.trace_model.specs.Legal.{IsLegal};

use crate::allowed::is_allowed;
use crate::missing::first_missing;
use crate::passing::check_once;
use crate::rule::rule_of;
use cam_types::{NoMemory, Script};
use picture_stages::Canvas;
use run_model::a_complete_run_keeps_the_laws;
use std::alloc::Global;
use trace_model::{Entry, TraceList, Verdict};

/// Judges a trace: whether it is a complete legal run of the script, else its first entry that isn't allowed, else the
/// first part that it lacks. The profile that the trace names plays no part. Each entry is looked at once, where the
/// script is valid: then the memory that it takes is room for one picture, the tables of the trace's state, and at most
/// so many digests as `picture_digest` remembers, whatever the length of the trace. Of another script, which no text
/// spells, it judges as `check_plain` does.
pub fn check(alloc: Global, script: &Script, trace: &TraceList) -> Result<Verdict, NoMemory>
    ensures exact { IfOk result (λ verdict. IsVerdict script.now trace.now.entries verdict) }
    // A complete legal run keeps the laws.
    ensures lawful { IfOk result
        (λ verdict. verdict ≡ Verdict.Legal → KeepsLaws script.now (reverse trace.now.entries)) }
{
    a_complete_run_keeps_the_laws();
    if script.is_valid() && script.profile.is_valid() {
        check_once(alloc, script, trace)
    } else {
        check_plain(alloc, script, trace)
    }
}

/// Judges a trace as `check` does, but each entry over all those before it, and draws each picture: in the words of the
/// definitions, and in time that grows with the square of the trace's length. The memory that it takes is room for one
/// picture.
pub fn check_plain(alloc: Global, script: &Script, trace: &TraceList) -> Result<Verdict, NoMemory>
    ensures exact { IfOk result (λ verdict. IsVerdict script.now trace.now.entries verdict) }
    // A complete legal run keeps the laws.
    ensures lawful { IfOk result
        (λ verdict. verdict ≡ Verdict.Legal → KeepsLaws script.now (reverse trace.now.entries)) }
{
    a_complete_run_keeps_the_laws();
    let canvas = Canvas::new(alloc)?;
    Ok(judge_each(script, trace, canvas))
}

/// Judges entry by entry, each over those before it.
fn judge_each(script: &Script, trace: &TraceList, canvas: Canvas) -> Verdict
    ensures { IsVerdict script.now trace.now.entries result }
{
    let entries = trace.as_slice();
    let mut canvas = canvas;
    for position in 0..trace.len() {
        let place = position as usize;
        let (allowed, after) = is_allowed(script, &entries[..place], &entries[place], canvas);
        canvas = after;
        if !allowed {
            return Verdict::IllegalAt {
                position,
                rule: rule_of(&entries[place]),
            };
        }
    }
    judge_end(script, entries)
}

/// Judges entries of which each is allowed: whether they are complete.
fn judge_end(script: &Script, entries: &[Entry]) -> Verdict
    requires { IsLegal script.now (reverse entries.now) }
    ensures { IsVerdict script.now entries.now result }
{
    match first_missing(script, entries) {
        Some(part) => Verdict::Incomplete { part },
        None => Verdict::Legal,
    }
}
