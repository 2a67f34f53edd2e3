//! Writing a trace, or its summary.
ghost use Rattle.std.specs.Prelude.{◌≡◌, true};
ghost use Rattle.std.specs.List.{list_all};
ghost use Rattle.trace_model.specs.Printable.{is_printable};
ghost use Rattle.trace_text.specs.Spelling.{spelling};
ghost use Rattle.call_parts.specs.Answers.{Answers};
ghost use Rattle.call_parts.specs.Texts.{text_by};
ghost use Rattle.call_parts.specs.Status.{status_number};

use crate::Status;
use crate::output::Output;
use io_edge::Sink;
use trace_model::Entry;
use trace_text::TraceWriter;

/// Writes a trace, or its summary. It takes no memory.
pub fn write_run<K: Sink>(
    writer: &mut TraceWriter,
    trace: &[Entry],
    output: Output,
    sink: &mut K,
) -> Status
    requires { list_all is_printable trace.now ≡ true }
    ensures { Answers 0 (text_by output writer.old trace.now) (status_number result)
        (K.state sink.old) (K.state sink.new) }
{
    match output {
        Output::Trace => write_trace(writer, trace, sink),
        Output::Summary => write_summary(writer, trace, sink),
    }
}

/// Writes the summary of a trace.
fn write_summary<K: Sink>(writer: &mut TraceWriter, trace: &[Entry], sink: &mut K) -> Status
    ensures { Answers 0 (text_by Output.Summary writer.old trace.now) (status_number result)
        (K.state sink.old) (K.state sink.new) }
{
    match writer.write_summary(trace, sink) {
        Ok(()) => Status::Done,
        Err(_) => Status::SinkFailed,
    }
}

/// Writes a trace. It takes no memory.
pub fn write_trace<K: Sink>(writer: &mut TraceWriter, trace: &[Entry], sink: &mut K) -> Status
    requires { list_all is_printable trace.now ≡ true }
    ensures { Answers 0 (spelling writer.old trace.now) (status_number result) (K.state sink.old) (K.state sink.new) }
{
    match writer.write(trace, sink) {
        Ok(()) => Status::Done,
        Err(_) => Status::SinkFailed,
    }
}
