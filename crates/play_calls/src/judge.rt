//! `check`: a script and a trace are read, and the trace is judged.
ghost use Rattle.std.specs.Prelude.{◌≤◌, length};
ghost use Rattle.trace_reader.specs.Grammar.{trace_of};
ghost use Rattle.call_parts.specs.Lines.{verdict_status, verdict_text};
ghost use Rattle.call_parts.specs.Meaning.{Judges, JudgesBoth, JudgesTrace, JudgesWhole};
ghost use Rattle.call_parts.specs.Answers.{AnswersWithMemory, OnDone, Tells, TellsBy};
ghost use Rattle.call_parts.specs.Ends.{KeepsEnds};
ghost use Rattle.play_calls.specs.Judging.{IsJudgedLegal};
ghost use Rattle.call_parts.specs.Status.{status_number};

use call_parts::{
    PROFILE_DIFFERS, Status, TraceInput, TraceWork, answer_input, answer_made, parts_of,
    profiles_agree, refuse_script, refuse_trace, status_of, verdict_text,
};
use cam_types::Script;
use io_edge::{Sink, Source};
use run_model::a_complete_run_keeps_the_laws;
use std::alloc::Global;
use text_parts::TextRefused;
use trace_check::check;
use trace_model::{TraceList, Verdict};
use trace_reader::{TRACE_BYTES, TraceRefused};

/// What `check` makes of its input.
#[derive(Drop)]
struct Check;

impl TraceWork for Check {
    ghost use Rattle.call_parts.specs.Meaning.{JudgesWhole};

    ghost belongs = { λ _. JudgesWhole };

    fn answer_trace<K: Sink>(&self, alloc: Global, input: &[u8], sink: &mut K) -> Status {
        judge_input(alloc, input, sink)
    }

    #[tactic(auto, using(crate::proofs::TraceTelling::are_judged))]
    fn keeps_the_law(&self) {}
}

/// Reads a script followed by a trace, judges the trace and writes the verdict.
pub fn check_call<S: Source, K: Sink>(alloc: Global, source: &mut S, sink: &mut K) -> Status
    // At status 0 the source was read to its end, its bytes are a script and a trace of its profile, and the trace is a
    // complete legal run of the script and keeps the laws.
    ensures legal { OnDone IsJudgedLegal (status_number result) (S.left source.old) (S.left source.new) (K.state sink.old)
        (K.state sink.new) }
    // Each status and each text has its cause in the input's meaning.
    ensures tells { Tells Judges (S.left source.old) (status_number result) (K.state sink.old) (K.state sink.new) }
    ensures ends { KeepsEnds TRACE_BYTES (status_number result) (S.faults source.old) (S.faults source.new) (S.left source.old)
        (S.left source.new) (K.state sink.old) (K.state sink.new) }
{
    a_complete_run_keeps_the_laws();
    answer_input(alloc, source, sink, TRACE_BYTES, &TraceInput(Check))
}

/// Reads a script followed by a trace, judges the trace and writes the verdict: what `check` does of an input that is
/// read.
pub fn judge_input<K: Sink>(alloc: Global, input: &[u8], sink: &mut K) -> Status
    requires { length input.now ≤ 134217728 }
    ensures { TellsBy (JudgesWhole input.now) (status_number result) (K.state sink.old) (K.state sink.new) }
{
    let parts = parts_of(input);
    match script_text::read(alloc, parts.script) {
        Err(TextRefused::NoMemory) => Status::NoMemory,
        Err(TextRefused::Bad { line, cause }) => refuse_script(alloc, line, cause.number(), sink),
        Ok(script) => judge_text_of(alloc, &script, parts.trace, parts.first_line as u32, sink),
    }
}

/// Reads a trace, whose first line has the number, and judges it.
fn judge_text_of<K: Sink>(
    alloc: Global,
    script: &Script,
    text: &[u8],
    first_line: u32,
    sink: &mut K,
) -> Status
    requires long { length text.now ≤ 134217728 }
    requires some { 1 ≤ first_line }
    requires numbers { first_line ≤ 134217729 }
    ensures { TellsBy (JudgesTrace first_line script.now (trace_of first_line text.now)) (status_number result)
        (K.state sink.old) (K.state sink.new) }
{
    match trace_reader::read(alloc, text, first_line) {
        Err(TraceRefused::NoMemory) => Status::NoMemory,
        Err(TraceRefused::Bad { line, cause }) => refuse_trace(alloc, line, cause.number(), sink),
        Ok(trace) => judge_trace(alloc, script, &trace, first_line, sink),
    }
}

/// Compares the profiles of a script and a trace, whose first line has the number; where they agree, judges the trace
/// and writes its verdict.
fn judge_trace<K: Sink>(
    alloc: Global,
    script: &Script,
    trace: &TraceList,
    first_line: u32,
    sink: &mut K,
) -> Status
    ensures { TellsBy (JudgesBoth first_line script.now trace.now) (status_number result) (K.state sink.old) (K.state sink.new) }
{
    if !profiles_agree(script, trace) {
        return refuse_trace(alloc, first_line, PROFILE_DIFFERS, sink);
    }
    match check(alloc, script, trace) {
        Ok(verdict) => write_verdict(alloc, verdict, sink),
        Err(_) => Status::NoMemory,
    }
}

/// Writes a verdict.
fn write_verdict<K: Sink>(alloc: Global, verdict: Verdict, sink: &mut K) -> Status
    ensures { AnswersWithMemory (verdict_status verdict) (verdict_text verdict) (status_number result)
        (K.state sink.old) (K.state sink.new) }
{
    answer_made(verdict_text(alloc, verdict), status_of(verdict), sink)
}
