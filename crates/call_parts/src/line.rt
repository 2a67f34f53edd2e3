//! The judge's lines.
ghost use Rattle.std.specs.Prelude.{◌≡◌, ◌++◌, IfOk, OnOk};
ghost use Rattle.call_parts.specs.Lines.{line_and_cause, part_text, refused_script_text, refused_trace_text, rule_text, verdict_text};

use cam_types::NoMemory;
use std::alloc::Global;
use trace_model::{MissingPart, RuleName, Verdict};

fn rule_text(rule: RuleName) -> &'static str
    ensures { result.now ≡ rule_text rule }
{
    match rule {
        RuleName::D9 => "D9",
        RuleName::D10 => "D10",
        RuleName::D11 => "D11",
        RuleName::D12 => "D12",
        RuleName::D13 => "D13",
        RuleName::D14 => "D14",
        RuleName::D15 => "D15",
    }
}

fn part_text(part: MissingPart) -> &'static str
    ensures { result.now ≡ part_text part }
{
    match part {
        MissingPart::Calls => "calls",
        MissingPart::Open => "open",
        MissingPart::Queued => "queued",
        MissingPart::Pool => "pool",
        MissingPart::Signal => "signal",
    }
}

/// Appends the line of an entry that isn't allowed.
fn put_illegal(
    text: &mut Vec<u8>,
    alloc: Global,
    position: u32,
    rule: RuleName,
) -> Result<(), NoMemory>
    ensures { OnOk result (text.new.items ≡ text.old.items ++ verdict_text (Verdict.IllegalAt position rule)) }
{
    text.extend_from_slice(b"illegal ")?;
    text.extend_from_slice(position.to_string(alloc)?.as_bytes())?;
    text.extend_from_slice(b" ")?;
    text.extend_from_slice(rule_text(rule).as_bytes())?;
    text.extend_from_slice(b"\n")
}

/// Appends the line of a part that is missing.
fn put_incomplete(text: &mut Vec<u8>, part: MissingPart) -> Result<(), NoMemory>
    ensures { OnOk result (text.new.items ≡ text.old.items ++ verdict_text (Verdict.Incomplete part)) }
{
    text.extend_from_slice(b"incomplete ")?;
    text.extend_from_slice(part_text(part).as_bytes())?;
    text.extend_from_slice(b"\n")?;
    Ok(())
}

/// Appends the line of a verdict.
fn put_verdict(text: &mut Vec<u8>, alloc: Global, verdict: Verdict) -> Result<(), NoMemory>
    ensures { OnOk result (text.new.items ≡ text.old.items ++ verdict_text verdict) }
{
    match verdict {
        Verdict::Legal => text.extend_from_slice(b"legal\n"),
        Verdict::IllegalAt { position, rule } => put_illegal(text, alloc, position, rule),
        Verdict::Incomplete { part } => put_incomplete(text, part),
    }
}

/// The line of a verdict: `legal`, `illegal POSITION RULE` or `incomplete PART`.
pub fn verdict_text(alloc: Global, verdict: Verdict) -> Result<Vec<u8>, NoMemory>
    ensures { IfOk result (λ text. text.items ≡ verdict_text verdict) }
{
    let mut text = Vec::new(alloc);
    put_verdict(&mut text, alloc, verdict)?;
    Ok(text)
}

/// Appends `LINE CAUSE` and the line's end.
fn put_line_and_cause(
    text: &mut Vec<u8>,
    alloc: Global,
    line: u32,
    cause: u8,
) -> Result<(), NoMemory>
    ensures { OnOk result (text.new.items ≡ text.old.items ++ line_and_cause line cause) }
{
    text.extend_from_slice(line.to_string(alloc)?.as_bytes())?;
    text.extend_from_slice(b" ")?;
    text.extend_from_slice(cause.to_string(alloc)?.as_bytes())?;
    text.extend_from_slice(b"\n")
}

/// The line that refuses a script: `refused script LINE CAUSE`.
pub fn refused_script_text(alloc: Global, line: u32, cause: u8) -> Result<Vec<u8>, NoMemory>
    ensures { IfOk result (λ text. text.items ≡ refused_script_text line cause) }
{
    let mut text = Vec::new(alloc);
    text.extend_from_slice(b"refused script ")?;
    put_line_and_cause(&mut text, alloc, line, cause)?;
    Ok(text)
}

/// The line that refuses a trace: `refused trace LINE CAUSE`.
pub fn refused_trace_text(alloc: Global, line: u32, cause: u8) -> Result<Vec<u8>, NoMemory>
    ensures { IfOk result (λ text. text.items ≡ refused_trace_text line cause) }
{
    let mut text = Vec::new(alloc);
    text.extend_from_slice(b"refused trace ")?;
    put_line_and_cause(&mut text, alloc, line, cause)?;
    Ok(text)
}
