//! The lines that refuse an input.
ghost use Rattle.call_parts.specs.Lines.{refused_script_text, refused_trace_text};
ghost use Rattle.call_parts.specs.Answers.{AnswersWithMemory};
ghost use Rattle.call_parts.specs.Status.{status_number};

use crate::{Status, answer_made, refused_script_text, refused_trace_text};
use io_edge::Sink;
use std::alloc::Global;

/// The cause of an input with more bytes than a trace may have.
pub const TOO_LONG: u8 = 45;

/// The cause of a trace whose profile isn't the script's.
pub const PROFILE_DIFFERS: u8 = 46;

/// Refuses a script.
pub fn refuse_script<K: Sink>(alloc: Global, line: u32, cause: u8, sink: &mut K) -> Status
    ensures { AnswersWithMemory 1 (refused_script_text line cause) (status_number result) (K.state sink.old) (K.state sink.new) }
{
    let text = refused_script_text(alloc, line, cause);
    answer_made(text, Status::Refused, sink)
}

/// Refuses a trace.
pub fn refuse_trace<K: Sink>(alloc: Global, line: u32, cause: u8, sink: &mut K) -> Status
    ensures { AnswersWithMemory 1 (refused_trace_text line cause) (status_number result) (K.state sink.old) (K.state sink.new) }
{
    let text = refused_trace_text(alloc, line, cause);
    answer_made(text, Status::Refused, sink)
}
