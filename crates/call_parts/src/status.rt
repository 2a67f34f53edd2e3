//! How the program ends, and the answer that is written.
ghost use Rattle.std.specs.Prelude.{◌≡◌, ◌⊎◌, ◌<◌, ℕ, List, IfOk, length};
ghost use Rattle.io_edge.specs.States.{Writes};
ghost use Rattle.call_parts.specs.Lines.{verdict_status};
ghost use Rattle.call_parts.specs.Answers.{Answers, AnswersWithMemory};
ghost use Rattle.call_parts.specs.Status.{status_number};

use io_edge::{NoMemory, Sink, write_all};
use trace_model::Verdict;

/// How the program ended. Each has its number.
#[derive(Clone, Copy, Debug, PartialEq, Eq)]
pub enum Status {
    /// All that was asked for is done.
    Done,
    /// The input is refused.
    Refused,
    /// The words are no form of the program.
    Usage,
    /// The source failed.
    SourceFailed,
    /// The sink failed.
    SinkFailed,
    /// There was no memory.
    NoMemory,
}

impl Status {
    /// The number with which the program ends: 0 to 5, in the order above.
    pub fn number(self) -> u8
        ensures { result ≡ status_number self }
    {
        match self {
            Status::Done => 0,
            Status::Refused => 1,
            Status::Usage => 2,
            Status::SourceFailed => 3,
            Status::SinkFailed => 4,
            Status::NoMemory => 5,
        }
    }
}

/// Writes the text, and gives the status, or 4 where the sink failed.
pub fn answer<K: Sink>(sink: &mut K, text: &[u8], status: Status) -> Status
    ensures { Answers (status_number status) text.now (status_number result) (K.state sink.old) (K.state sink.new) }
{
    match write_all(sink, text) {
        Ok(()) => status,
        Err(_) => Status::SinkFailed,
    }
}

/// Writes a text that was to be made, and gives the status, or 4 where the sink failed. Where there was no memory for the
/// text, the status is 5 and nothing is written.
pub fn answer_made<K: Sink>(made: Result<Vec<u8>, NoMemory>, status: Status, sink: &mut K) -> Status
    ensures { (text : List ℕ) → IfOk made (λ it. it.items ≡ text) → AnswersWithMemory (status_number status) text (status_number result)
        (K.state sink.old) (K.state sink.new) }
{
    match made {
        Ok(text) => answer(sink, text.as_slice(), status),
        Err(_) => Status::NoMemory,
    }
}

/// The status of a verdict: only a legal trace is not refused.
pub fn status_of(verdict: Verdict) -> Status
    ensures { status_number result ≡ verdict_status verdict }
{
    match verdict {
        Verdict::Legal => Status::Done,
        Verdict::IllegalAt { .. } => Status::Refused,
        Verdict::Incomplete { .. } => Status::Refused,
    }
}
