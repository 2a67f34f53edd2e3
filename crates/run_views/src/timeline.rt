//! `timeline`: a script and a trace, or a hal log, is read and judged, and it is drawn.
ghost use Rattle.std.specs.Prelude.{◌≡◌, ◌≤◌, length, true};
ghost use Rattle.std.specs.List.{list_all};
ghost use Rattle.trace_model.specs.Printable.{is_printable};
ghost use Rattle.trace_reader.specs.Grammar.{trace_of};
ghost use Rattle.call_parts.specs.Lines.{verdict_status};
ghost use Rattle.call_parts.specs.Answers.{AnswersWithMemory, OnDone, Tells, TellsBy};
ghost use Rattle.call_parts.specs.Ends.{KeepsEnds};
ghost use Rattle.trace_model.specs.Verdict.{IsVerdict};
ghost use Rattle.run_views.specs.Fronts.{text_of};
ghost use Rattle.run_views.specs.Shown.{IsShown, Shows, ShowsBoth, ShowsTrace, ShowsWhole};
ghost use Rattle.call_parts.specs.Status.{status_number};

use crate::form::Form;
use crate::kind::is_hal;
use crate::log::show_log;
use crate::picture::text_of;
use call_parts::{
    PROFILE_DIFFERS, Status, TraceInput, TraceWork, answer_input, answer_made, parts_of,
    profiles_agree, refuse_script, refuse_trace, status_of,
};
use cam_types::Script;
use io_edge::{Sink, Source};
use std::alloc::Global;
use text_parts::TextRefused;
use trace_check::check;
use trace_model::{TraceList, Verdict};
use trace_reader::{TRACE_BYTES, TraceRefused, read_is_spelled};

/// What `timeline` makes of its input.
impl TraceWork for Form {
    ghost use Rattle.run_views.specs.Kinds.{is_hal};
    ghost use Rattle.run_views.specs.Shown.{ShowsKind};

    ghost belongs = { λ form input. ShowsKind form input (is_hal input) };

    fn answer_trace<K: Sink>(&self, alloc: Global, input: &[u8], sink: &mut K) -> Status {
        if is_hal(input) {
            show_log(alloc, *self, input, sink)
        } else {
            show_parts(alloc, *self, input, sink)
        }
    }

    #[tactic(auto, using(crate::proofs::Telling::are_shown))]
    fn keeps_the_law(&self) {}
}

/// Reads a script followed by a trace, and writes the timeline of the trace, also of one that isn't legal or complete;
/// or reads a hal log, and writes its timeline, also of one that breaks rules. Where the input isn't that, it writes the
/// line of `check`, or that of `hal`. The status is that of `check`, or of `hal`.
pub fn timeline_call<S: Source, K: Sink>(
    alloc: Global,
    source: &mut S,
    sink: &mut K,
    form: Form,
) -> Status
    // At status 0 the source was read to its end, its bytes are a script and a complete legal trace of its profile, or a
    // hal log that breaks none of the rules, and the timeline of that was written, and nothing else.
    ensures whole { OnDone (IsShown form) (status_number result) (S.left source.old) (S.left source.new) (K.state sink.old)
        (K.state sink.new) }
    // Each status and each text has its cause in the input's meaning.
    ensures tells { Tells (Shows form) (S.left source.old) (status_number result) (K.state sink.old) (K.state sink.new) }
    ensures ends { KeepsEnds TRACE_BYTES (status_number result) (S.faults source.old) (S.faults source.new) (S.left source.old)
        (S.left source.new) (K.state sink.old) (K.state sink.new) }
{
    answer_input(alloc, source, sink, TRACE_BYTES, &TraceInput(form))
}

/// Writes the timeline of an input that is a script and a trace.
fn show_parts<K: Sink>(alloc: Global, form: Form, input: &[u8], sink: &mut K) -> Status
    requires { length input.now ≤ 134217728 }
    ensures { TellsBy (ShowsWhole form input.now) (status_number result) (K.state sink.old) (K.state sink.new) }
{
    let parts = parts_of(input);
    match script_text::read(alloc, parts.script) {
        Err(TextRefused::NoMemory) => Status::NoMemory,
        Err(TextRefused::Bad { line, cause }) => refuse_script(alloc, line, cause.number(), sink),
        Ok(script) => show_text(
            alloc,
            form,
            &script,
            parts.trace,
            parts.first_line as u32,
            sink,
        ),
    }
}

/// Reads a trace, whose first line has the number, and writes its timeline.
fn show_text<K: Sink>(
    alloc: Global,
    form: Form,
    script: &Script,
    text: &[u8],
    first_line: u32,
    sink: &mut K,
) -> Status
    requires long { length text.now ≤ 134217728 }
    requires some { 1 ≤ first_line }
    requires numbers { first_line ≤ 134217729 }
    ensures { TellsBy (ShowsTrace form first_line script.now (trace_of first_line text.now)) (status_number result)
        (K.state sink.old) (K.state sink.new) }
{
    read_is_spelled();
    match trace_reader::read(alloc, text, first_line) {
        Err(TraceRefused::NoMemory) => Status::NoMemory,
        Err(TraceRefused::Bad { line, cause }) => refuse_trace(alloc, line, cause.number(), sink),
        Ok(trace) => show_trace(alloc, form, script, &trace, first_line, sink),
    }
}

/// Compares the profiles of a script and a trace, whose first line has the number; where they agree, judges the trace
/// and writes its timeline.
fn show_trace<K: Sink>(
    alloc: Global,
    form: Form,
    script: &Script,
    trace: &TraceList,
    first_line: u32,
    sink: &mut K,
) -> Status
    requires { list_all is_printable trace.now.entries ≡ true }
    ensures { TellsBy (ShowsBoth form first_line script.now trace.now) (status_number result)
        (K.state sink.old) (K.state sink.new) }
{
    if !profiles_agree(script, trace) {
        return refuse_trace(alloc, first_line, PROFILE_DIFFERS, sink);
    }
    match check(alloc, script, trace) {
        Ok(verdict) => write_timeline(alloc, form, script, trace, verdict, sink),
        Err(_) => Status::NoMemory,
    }
}

/// Writes the timeline of a trace that has the verdict.
fn write_timeline<K: Sink>(
    alloc: Global,
    form: Form,
    script: &Script,
    trace: &TraceList,
    verdict: Verdict,
    sink: &mut K,
) -> Status
    requires printable { list_all is_printable trace.now.entries ≡ true }
    requires judged { IsVerdict script.now trace.now.entries verdict }
    ensures { AnswersWithMemory (verdict_status verdict) (text_of form script.now trace.now.entries verdict)
        (status_number result) (K.state sink.old) (K.state sink.new) }
{
    let _count = trace.len();
    let text = text_of(alloc, form, script, trace.as_slice(), verdict);
    answer_made(text, status_of(verdict), sink)
}
