//! `explain`: a script and a trace are read, the trace is judged, and the verdict is explained.
ghost use Rattle.std.specs.Prelude.{◌≡◌, ◌+◌, ◌≤◌, IsTrue, Ok, length};
ghost use Rattle.std.specs.List.{list_all};
ghost use Rattle.cam_types.specs.Script.{is_valid};
ghost use Rattle.trace_model.specs.Verdict.{IsVerdict};
ghost use Rattle.trace_model.specs.Printable.{is_printable};
ghost use Rattle.script_text.specs.Grammar.{script_of};
ghost use Rattle.trace_reader.specs.Grammar.{trace_of};
ghost use Rattle.call_parts.specs.Lines.{verdict_status};
ghost use Rattle.call_parts.specs.Answers.{AnswersWithMemory, OnDone, Tells, TellsBy};
ghost use Rattle.call_parts.specs.Ends.{KeepsEnds};
ghost use Rattle.explain_call.specs.Explaining.{explained, Explains, ExplainsBoth, ExplainsTrace, ExplainsWhole, IsExplainedLegal};
ghost use Rattle.call_parts.specs.Status.{status_number};

use crate::judged::{Judged, judge};
use crate::refusals::{refuse_input, refuse_profile, refuse_script, refuse_trace};
use crate::verdict::explain_verdict;
use call_parts::{
    InputWork, Status, answer_input, answer_made, parts_of, profiles_agree, status_of,
};
use cam_types::Script;
use io_edge::{Sink, Source};
use std::alloc::Global;
use text_parts::TextRefused;
use trace_model::TraceList;
use trace_reader::{TRACE_BYTES, TraceRefused, read_is_spelled};

/// What `explain` makes of its input.
#[derive(Drop)]
struct Explain;

impl InputWork for Explain {
    ghost use Rattle.explain_call.specs.Explaining.{Explains};
    ghost use Rattle.wrong_words.specs.Refused.{refused_input};

    ghost limit = { 134217728 };

    ghost belongs = { λ _. Explains };

    ghost refusal = { λ _. refused_input };

    fn refuse_long<K: Sink>(&self, alloc: Global, sink: &mut K) -> Status {
        refuse_input(alloc, sink)
    }

    fn answer_whole<K: Sink>(&self, alloc: Global, input: &[u8], sink: &mut K) -> Status {
        explain_input(alloc, input, sink)
    }

    #[tactic(auto, using(crate::proofs::Telling::are_explained, crate::proofs::Telling::long_refused))]
    fn keeps_the_laws(&self) {}
}

/// Reads a script followed by a trace, as `check` does, judges the trace and writes its verdict in words. The statuses
/// are those of `check`.
pub fn explain_call<S: Source, K: Sink>(alloc: Global, source: &mut S, sink: &mut K) -> Status
    // At status 0 the source was read to its end, its bytes are a script and a trace of its profile, the trace is a
    // complete legal run of the script, and `legal` was written with what of the script did nothing.
    ensures whole { OnDone IsExplainedLegal (status_number result) (S.left source.old) (S.left source.new) (K.state sink.old)
        (K.state sink.new) }
    // Each status and each text has its cause in the input's meaning.
    ensures tells { Tells Explains (S.left source.old) (status_number result) (K.state sink.old) (K.state sink.new) }
    ensures ends { KeepsEnds TRACE_BYTES (status_number result) (S.faults source.old) (S.faults source.new) (S.left source.old)
        (S.left source.new) (K.state sink.old) (K.state sink.new) }
{
    answer_input(alloc, source, sink, TRACE_BYTES, &Explain)
}

/// Reads a script followed by a trace, judges the trace and writes its verdict in words.
fn explain_input<K: Sink>(alloc: Global, input: &[u8], sink: &mut K) -> Status
    requires { length input.now ≤ 134217728 }
    ensures { TellsBy (ExplainsWhole input.now) (status_number result) (K.state sink.old) (K.state sink.new) }
{
    let parts = parts_of(input);
    match script_text::read(alloc, parts.script) {
        Err(TextRefused::NoMemory) => Status::NoMemory,
        Err(TextRefused::Bad { line, cause }) => {
            refuse_script(alloc, parts.script, line, cause, sink)
        }
        Ok(script) => explain_text_of(
            alloc,
            &script,
            parts.script,
            parts.trace,
            parts.first_line as u32,
            sink,
        ),
    }
}

/// Reads a trace, whose first line has the number, and explains the verdict on it beside its script, of that text.
fn explain_text_of<K: Sink>(
    alloc: Global,
    script: &Script,
    part: &[u8],
    text: &[u8],
    first_line: u32,
    sink: &mut K,
) -> Status
    requires meant { script_of part.now ≡ Ok script.now }
    requires valid { IsTrue (is_valid script.now) }
    requires part { length part.now ≤ 134217728 }
    requires long { length text.now ≤ 134217728 }
    requires some { 1 ≤ first_line }
    requires numbers { first_line ≤ 134217729 }
    ensures { TellsBy (ExplainsTrace first_line part.now text.now script.now (trace_of first_line text.now))
        (status_number result) (K.state sink.old) (K.state sink.new) }
{
    read_is_spelled();
    match trace_reader::read(alloc, text, first_line) {
        Err(TraceRefused::NoMemory) => Status::NoMemory,
        Err(TraceRefused::Bad { line, cause }) => {
            refuse_trace(alloc, text, first_line, line, cause, sink)
        }
        Ok(trace) => explain_trace(alloc, script, part, text, &trace, first_line, sink),
    }
}

/// Compares the profiles of a script and a trace, whose first line has the number; where they agree, judges the trace
/// and explains the verdict.
fn explain_trace<K: Sink>(
    alloc: Global,
    script: &Script,
    part: &[u8],
    text: &[u8],
    trace: &TraceList,
    first_line: u32,
    sink: &mut K,
) -> Status
    requires meant { script_of part.now ≡ Ok script.now }
    requires valid { IsTrue (is_valid script.now) }
    requires part { length part.now ≤ 134217728 }
    requires numbers { first_line ≤ 134217729 }
    requires printable { IsTrue (list_all is_printable trace.now.entries) }
    ensures { TellsBy (ExplainsBoth first_line part.now text.now script.now trace.now) (status_number result)
        (K.state sink.old) (K.state sink.new) }
{
    if !profiles_agree(script, trace) {
        return refuse_profile(alloc, text, first_line, script.profile, sink);
    }
    match judge(alloc, script, part, trace) {
        Ok(judged) => write_explanation(alloc, script, part, trace, first_line, judged, sink),
        Err(_) => Status::NoMemory,
    }
}

/// Writes the verdict on a trace, whose first line has the number, in words.
fn write_explanation<K: Sink>(
    alloc: Global,
    script: &Script,
    part: &[u8],
    trace: &TraceList,
    first_line: u32,
    judged: Judged,
    sink: &mut K,
) -> Status
    requires valid { IsTrue (is_valid script.now) }
    requires judged { IsVerdict script.now trace.now.entries judged.verdict }
    requires part { length part.now ≤ 134217728 }
    requires numbers { first_line ≤ 134217729 }
    requires printable { IsTrue (list_all is_printable trace.now.entries) }
    ensures { AnswersWithMemory (verdict_status judged.verdict)
        (explained script.now part.now judged.moves (first_line + 1) trace.now.entries judged.verdict) (status_number result)
        (K.state sink.old) (K.state sink.new) }
{
    let _count = trace.len();
    let number = u64::from(first_line) + 1;
    let text = explain_verdict(alloc, script, part, trace, number, judged);
    answer_made(text, status_of(judged.verdict), sink)
}
