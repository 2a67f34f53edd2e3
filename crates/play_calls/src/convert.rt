//! `convert`: a trace is read, and written as one of version 2.
ghost use Rattle.std.specs.Prelude.{◌≡◌, Result, true};
ghost use Rattle.std.specs.List.{list_all};
ghost use Rattle.trace_model.specs.Printable.{is_printable};
ghost use Rattle.call_parts.specs.Answers.{OnDone, Tells, TellsBy};
ghost use Rattle.call_parts.specs.Ends.{KeepsEnds};
ghost use Rattle.play_calls.specs.Converting.{Converts, ConvertsInput, IsConverted};
ghost use Rattle.call_parts.specs.Status.{status_number};

use call_parts::{
    Status, TraceInput, TraceWork, answer_input, profile_of, refuse_trace, write_trace,
};
use io_edge::{Sink, Source};
use std::alloc::Global;
use trace_model::TraceList;
use trace_reader::{TRACE_BYTES, TraceRefused, read, read_is_spelled};
use trace_text::TraceWriter;

/// What `convert` makes of its input.
#[derive(Drop)]
struct Convert;

impl TraceWork for Convert {
    ghost use Rattle.play_calls.specs.Converting.{Converts};
    ghost use Rattle.trace_reader.specs.Grammar.{trace_of};

    ghost belongs = { λ _ input. Converts (trace_of 1 input) };

    fn answer_trace<K: Sink>(&self, alloc: Global, input: &[u8], sink: &mut K) -> Status {
        read_is_spelled();
        match read(alloc, input, 1) {
            Err(TraceRefused::NoMemory) => Status::NoMemory,
            Err(TraceRefused::Bad { line, cause }) => {
                refuse_trace(alloc, line, cause.number(), sink)
            }
            Ok(trace) => write_version_two(alloc, &trace, sink),
        }
    }

    #[tactic(auto, using(crate::proofs::TraceTelling::are_converted))]
    fn keeps_the_law(&self) {}
}

/// Reads a trace and writes it as one of version 2, with the profile that it names, or 6 3 4.
pub fn convert_call<S: Source, K: Sink>(alloc: Global, source: &mut S, sink: &mut K) -> Status
    // At status 0 the source was read to its end, its bytes are the spelling of a trace, and what was written is the
    // whole spelling of that trace with the first line of version 2, and nothing else.
    ensures whole { OnDone IsConverted (status_number result) (S.left source.old) (S.left source.new) (K.state sink.old)
        (K.state sink.new) }
    // Each status and each text has its cause in the input's meaning.
    ensures tells { Tells ConvertsInput (S.left source.old) (status_number result) (K.state sink.old) (K.state sink.new) }
    ensures ends { KeepsEnds TRACE_BYTES (status_number result) (S.faults source.old) (S.faults source.new) (S.left source.old)
        (S.left source.new) (K.state sink.old) (K.state sink.new) }
{
    read_is_spelled();
    answer_input(alloc, source, sink, TRACE_BYTES, &TraceInput(Convert))
}

/// Writes a trace as one of version 2. All memory is taken before the first write.
fn write_version_two<K: Sink>(alloc: Global, trace: &TraceList, sink: &mut K) -> Status
    requires { list_all is_printable trace.now.entries ≡ true }
    ensures { TellsBy (Converts (Result.Ok trace.now)) (status_number result) (K.state sink.old) (K.state sink.new) }
{
    match TraceWriter::new(alloc, Some(profile_of(trace))) {
        Ok(mut writer) => write_trace(&mut writer, trace.as_slice(), sink),
        Err(_) => Status::NoMemory,
    }
}
