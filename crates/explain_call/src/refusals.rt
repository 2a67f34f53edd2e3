//! The refusal of an input in words.
ghost use Rattle.call_parts.specs.Answers.{AnswersWithMemory};
ghost use Rattle.wrong_words.specs.Refused.{refused_input, refused_profile, refused_script, refused_trace};
ghost use Rattle.call_parts.specs.Status.{status_number};

use call_parts::{Status, answer_made};
use cam_types::Profile;
use io_edge::Sink;
use std::alloc::Global;
use text_parts::Cause;
use trace_reader::Cause as TraceCause;
use wrong_words::{refused_input, refused_profile, refused_script, refused_trace};

/// Refuses a script, of that text.
pub fn refuse_script<K: Sink>(
    alloc: Global,
    part: &[u8],
    line: u32,
    cause: Cause,
    sink: &mut K,
) -> Status
    ensures { AnswersWithMemory 1 (refused_script part.now line cause) (status_number result)
        (K.state sink.old) (K.state sink.new) }
{
    answer_made(
        refused_script(alloc, part, line, cause),
        Status::Refused,
        sink,
    )
}

/// Refuses a trace, of that text, whose first line has the number.
pub fn refuse_trace<K: Sink>(
    alloc: Global,
    text: &[u8],
    first_line: u32,
    line: u32,
    cause: TraceCause,
    sink: &mut K,
) -> Status
    ensures { AnswersWithMemory 1 (refused_trace text.now first_line line cause) (status_number result)
        (K.state sink.old) (K.state sink.new) }
{
    answer_made(
        refused_trace(alloc, text, first_line, line, cause),
        Status::Refused,
        sink,
    )
}

/// Refuses a trace, of that text, beside a script of another profile.
pub fn refuse_profile<K: Sink>(
    alloc: Global,
    text: &[u8],
    first_line: u32,
    profile: Profile,
    sink: &mut K,
) -> Status
    ensures { AnswersWithMemory 1 (refused_profile text.now first_line profile) (status_number result)
        (K.state sink.old) (K.state sink.new) }
{
    answer_made(
        refused_profile(alloc, text, first_line, profile),
        Status::Refused,
        sink,
    )
}

/// Refuses an input that is too long.
pub fn refuse_input<K: Sink>(alloc: Global, sink: &mut K) -> Status
    ensures { AnswersWithMemory 1 refused_input (status_number result) (K.state sink.old) (K.state sink.new) }
{
    answer_made(refused_input(alloc), Status::Refused, sink)
}
