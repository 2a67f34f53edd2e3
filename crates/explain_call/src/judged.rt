//! A trace is judged, and the moves of its script's played run are counted where they are asked for.
ghost use Rattle.std.specs.Prelude.{◌≡◌, IfOk, Ok};
ghost use Rattle.explain_call.specs.Explaining.{CountsMoves};
ghost use Rattle.explain_call.specs.Length.{IsPlayedLength};
ghost use Rattle.script_text.specs.Grammar.{script_of};
ghost use Rattle.trace_model.specs.Verdict.{IsVerdict};

use crate::played_length;
use cam_types::{NoMemory, Script};
use std::alloc::{AllocError, Global};
use text_parts::TextRefused;
use trace_check::check;
use trace_model::{TraceList, Verdict};

/// The verdict on a trace. Of a legal one, whose script has picks, also how many moves the script's played run has.
#[derive(Clone, Copy)]
pub struct Judged {
    pub verdict: Verdict,
    pub moves: u64,
}

/// How many moves the run has that is played of the script, of that text.
fn played_moves(alloc: Global, script: &Script, part: &[u8]) -> Result<u64, NoMemory>
    requires { script_of part.now ≡ Ok script.now }
    ensures { IfOk result (λ moves. IsPlayedLength script.now moves) }
{
    let _script = script;
    match script_text::read(alloc, part) {
        Ok(again) => played_length(alloc, again),
        Err(TextRefused::NoMemory) => Err(AllocError),
        Err(TextRefused::Bad { .. }) => unreachable!(),
    }
}

/// How many moves those are, where they are asked for.
fn moves_of(alloc: Global, script: &Script, part: &[u8], verdict: Verdict) -> Result<u64, NoMemory>
    requires { script_of part.now ≡ Ok script.now }
    ensures { IfOk result (λ moves. CountsMoves script.now verdict moves) }
{
    if script.picks.len() == 0 {
        return Ok(0);
    }
    match verdict {
        Verdict::Legal => played_moves(alloc, script, part),
        _ => Ok(0),
    }
}

/// Judges a trace beside its script, of that text.
pub fn judge(
    alloc: Global,
    script: &Script,
    part: &[u8],
    trace: &TraceList,
) -> Result<Judged, NoMemory>
    requires { script_of part.now ≡ Ok script.now }
    ensures verdict { IfOk result (λ judged. IsVerdict script.now trace.now.entries judged.verdict) }
    ensures moves { IfOk result (λ judged. CountsMoves script.now judged.verdict judged.moves) }
{
    let verdict = check(alloc, script, trace)?;
    let moves = moves_of(alloc, script, part, verdict)?;
    Ok(Judged { verdict, moves })
}
