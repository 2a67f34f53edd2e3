//! `hal-of`: a script and a trace are read, the trace is judged, and its hal log is written.
ghost use Rattle.std.specs.Prelude.{◌≤◌, length};
ghost use Rattle.call_parts.specs.Answers.{OnDone, Tells, TellsBy};
ghost use Rattle.call_parts.specs.Ends.{KeepsEnds};
ghost use Rattle.hal_call.specs.Shown.{IsShown, Shows};
ghost use Rattle.call_parts.specs.Status.{status_number};

use crate::input::log_of_input;
use call_parts::{InputWork, Status, TOO_LONG, answer, answer_input, refuse_trace};
use io_edge::{Sink, Source};
use play_calls::judge_input;
use std::alloc::Global;
use trace_reader::TRACE_BYTES;

/// What `hal-of` makes of its input.
#[derive(Drop)]
struct HalOf;

impl InputWork for HalOf {
    ghost use Rattle.call_parts.specs.Lines.{refused_trace_text};
    ghost use Rattle.hal_call.specs.Shown.{Shows};

    ghost limit = { 134217728 };

    ghost belongs = { λ _. Shows };

    ghost refusal = { λ _. refused_trace_text 0 45 };

    fn refuse_long<K: Sink>(&self, alloc: Global, sink: &mut K) -> Status {
        refuse_trace(alloc, 0, TOO_LONG, sink)
    }

    fn answer_whole<K: Sink>(&self, alloc: Global, input: &[u8], sink: &mut K) -> Status {
        show_input(alloc, input, sink)
    }

    #[tactic(auto, using(crate::proofs::TraceLogTelling::are_shown, crate::proofs::TraceLogTelling::long_shown))]
    fn keeps_the_laws(&self) {}
}

/// Reads a script followed by a trace, and writes the hal log of the trace where it is a legal one, complete or not;
/// else it writes what `check` does.
pub fn hal_of_call<S: Source, K: Sink>(alloc: Global, source: &mut S, sink: &mut K) -> Status
    // At status 0 the source was read to its end, its bytes are a script and a legal trace of its profile, and the hal
    // log of the trace was written, and nothing else.
    ensures whole { OnDone IsShown (status_number result) (S.left source.old) (S.left source.new) (K.state sink.old)
        (K.state sink.new) }
    // Each status and each text has its cause in the input's meaning.
    ensures tells { Tells Shows (S.left source.old) (status_number result) (K.state sink.old) (K.state sink.new) }
    ensures ends { KeepsEnds TRACE_BYTES (status_number result) (S.faults source.old) (S.faults source.new) (S.left source.old)
        (S.left source.new) (K.state sink.old) (K.state sink.new) }
{
    answer_input(alloc, source, sink, TRACE_BYTES, &HalOf)
}

/// Writes the hal log of an input, or what `check` says of it where it has none.
fn show_input<K: Sink>(alloc: Global, input: &[u8], sink: &mut K) -> Status
    requires { length input.now ≤ 134217728 }
    ensures { TellsBy (Shows input.now) (status_number result) (K.state sink.old) (K.state sink.new) }
{
    match log_of_input(alloc, input) {
        Ok(Some(text)) => answer(sink, text.as_slice(), Status::Done),
        Ok(None) => judge_input(alloc, input, sink),
        Err(_) => Status::NoMemory,
    }
}
