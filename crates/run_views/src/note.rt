//! What stands under a picture: the verdict on the trace.
ghost use Rattle.std.specs.Prelude.{◌≡◌, ◌++◌, IfOk, IfSome, codes, decimal, reverse};
ghost use Rattle.run_views.specs.Notes.{fault_note, note_text, part_note, rule_note};
ghost use Rattle.trace_model.specs.Allowed.{IsAllowed};

use cam_types::{NoMemory, Script};
use rule_conditions::{first_failed, sentence_of};
use std::alloc::Global;
use trace_model::{Entry, MissingPart, RuleName, Verdict};

/// The rule that an entry breaks.
fn rule_note(rule: RuleName) -> &'static str
    ensures { result.now ≡ rule_note rule }
{
    match rule {
        RuleName::D9 => " D9: ",
        RuleName::D10 => " D10: ",
        RuleName::D11 => " D11: ",
        RuleName::D12 => " D12: ",
        RuleName::D13 => " D13: ",
        RuleName::D14 => " D14: ",
        RuleName::D15 => " D15: ",
    }
}

/// The sentence of the first condition that an entry doesn't meet behind those before it.
fn fault_note(script: &Script, before: &[Entry], fault: Option<Entry>) -> &'static str
    requires { IfSome fault (λ e. ¬ IsAllowed script.now (reverse before.now) e) }
    ensures { result.now ≡ fault_note script.now before.now fault }
{
    match fault {
        Some(entry) => sentence_of(first_failed(script, before, &entry)),
        None => "",
    }
}

/// What a run lacks.
fn part_note(part: MissingPart) -> &'static str
    ensures { result.now ≡ part_note part }
{
    match part {
        MissingPart::Calls => "incomplete calls: a command wasn't called",
        MissingPart::Open => "incomplete open: the device isn't done with a frame",
        MissingPart::Queued => "incomplete queued: an item is queued",
        MissingPart::Pool => "incomplete pool: a buffer isn't in the pool",
        MissingPart::Signal => "incomplete signal: a released fence isn't signalled",
    }
}

/// The note of an entry that isn't allowed, by what is told of its rule and the sentence.
fn illegal_note(
    alloc: Global,
    position: u32,
    rule: &str,
    sentence: &str,
) -> Result<Vec<u8>, NoMemory>
    ensures { IfOk result (λ text. text.items ≡
        codes "illegal " ++ (decimal position ++ (rule.now ++ sentence.now))) }
{
    let text = format!(in alloc; "illegal {position}{rule}{sentence}")?;
    Ok(text.into_bytes())
}

/// The note of a verdict on a trace, with the entries that are allowed and the one that isn't.
pub fn note_text(
    alloc: Global,
    script: &Script,
    before: &[Entry],
    fault: Option<Entry>,
    verdict: Verdict,
) -> Result<Vec<u8>, NoMemory>
    requires { IfSome fault (λ e. ¬ IsAllowed script.now (reverse before.now) e) }
    ensures { IfOk result (λ text. text.items ≡ note_text script.now before.now fault verdict) }
{
    match verdict {
        Verdict::Legal => b"legal".to_vec(alloc),
        Verdict::IllegalAt { position, rule } => illegal_note(
            alloc,
            position,
            rule_note(rule),
            fault_note(script, before, fault),
        ),
        Verdict::Incomplete { part } => part_note(part).as_bytes().to_vec(alloc),
    }
}
