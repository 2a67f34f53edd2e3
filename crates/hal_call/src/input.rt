//! The hal log of an input that is a script and a legal trace.
ghost use Rattle.std.specs.Prelude.{◌≡◌, ◌≤◌, IfOk, MatchOption, IsTrue, Result, length};
ghost use Rattle.cam_types.specs.Script.{is_valid};
ghost use Rattle.script_text.specs.Grammar.{script_of};
ghost use Rattle.trace_reader.specs.Grammar.{trace_of};
ghost use Rattle.call_parts.specs.Parts.{first_line, script_part, trace_part};
ghost use Rattle.hal_call.specs.Shown.{HasNoLog, IsLogOf, is_illegal};

use crate::hal_log_text;
use call_parts::{parts_of, profiles_agree};
use cam_types::{NoMemory, Script};
use std::alloc::{AllocError, Global};
use text_parts::TextRefused;
use trace_check::{a_trace_has_one_verdict, check};
use trace_model::{TraceList, Verdict};
use trace_reader::TraceRefused;

/// The text of the hal log of an input, or none where the input isn't a script and a legal trace of its profile.
pub fn log_of_input(alloc: Global, input: &[u8]) -> Result<Option<Vec<u8>>, NoMemory>
    requires { length input.now ≤ 134217728 }
    ensures { IfOk result (λ log. MatchOption log (HasNoLog input.now) (λ text. IsLogOf input.now text.items)) }
{
    let parts = parts_of(input);
    match script_text::read(alloc, parts.script) {
        Err(TextRefused::NoMemory) => Err(AllocError),
        Err(TextRefused::Bad { .. }) => Ok(None),
        Ok(script) => log_of_trace(alloc, input, &script, parts.trace, parts.first_line as u32),
    }
}

/// The same of a script and the text of a trace, whose first line has the number.
fn log_of_trace(
    alloc: Global,
    input: &[u8],
    script: &Script,
    text: &[u8],
    number: u32,
) -> Result<Option<Vec<u8>>, NoMemory>
    requires long { length text.now ≤ 134217728 }
    requires some { 1 ≤ number }
    requires numbers { number ≤ 134217729 }
    requires script { script_of (script_part input.now) ≡ Result.Ok script.now }
    requires valid { IsTrue (is_valid script.now) }
    requires trace { text.now ≡ trace_part input.now }
    requires line { number ≡ first_line input.now }
    requires short { length input.now ≤ 134217728 }
    ensures { IfOk result (λ log. MatchOption log (HasNoLog input.now) (λ text. IsLogOf input.now text.items)) }
{
    match trace_reader::read(alloc, text, number) {
        Err(TraceRefused::NoMemory) => Err(AllocError),
        Err(TraceRefused::Bad { .. }) => Ok(None),
        Ok(trace) => log_of_both(alloc, input, script, &trace),
    }
}

/// The same of a script and a trace.
fn log_of_both(
    alloc: Global,
    input: &[u8],
    script: &Script,
    trace: &TraceList,
) -> Result<Option<Vec<u8>>, NoMemory>
    requires short { length input.now ≤ 134217728 }
    requires script { script_of (script_part input.now) ≡ Result.Ok script.now }
    requires valid { IsTrue (is_valid script.now) }
    requires trace { trace_of (first_line input.now) (trace_part input.now) ≡ Result.Ok trace.now }
    ensures { IfOk result (λ log. MatchOption log (HasNoLog input.now) (λ text. IsLogOf input.now text.items)) }
{
    if !profiles_agree(script, trace) {
        return Ok(None);
    }
    a_trace_has_one_verdict();
    let verdict = check(alloc, script, trace)?;
    if is_illegal(verdict) {
        return Ok(None);
    }
    let text = hal_log_text(alloc, script, trace.as_slice())?;
    Ok(Some(text))
}

/// Whether an entry of the trace isn't allowed.
fn is_illegal(verdict: Verdict) -> bool
    ensures { result ≡ is_illegal verdict }
{
    matches!(verdict, Verdict::IllegalAt { .. })
}
