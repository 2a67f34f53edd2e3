//! A call that reads its whole input.
ghost use Rattle.std.specs.Prelude.{◌≡◌, ◌≤◌, ◌<◌, ℕ, List, length};
ghost use Rattle.call_parts.specs.Answers.{AnswersWithMemory, AreAnswers, Tells, TellsBy};
ghost use Rattle.call_parts.specs.Ends.{KeepsEnds};
ghost use Rattle.call_parts.specs.Status.{status_number};

use crate::Status;
use io_edge::{ReadBytes, ReadFault, Sink, Source, read_all};
use std::alloc::Global;

/// What a call makes of its whole input.
pub trait InputWork {
    /// The most bytes that an input may have.
    ghost limit: { ℕ };

    /// The status and the whole text that belong to an input.
    ghost belongs: { Self → List ℕ → ℕ → List ℕ → Type 0 };

    /// The text that refuses an input with more bytes.
    ghost refusal: { Self → List ℕ };

    /// Refuses an input with more bytes.
    fn refuse_long<K: Sink>(&self, alloc: Global, sink: &mut K) -> Status
        ensures { AnswersWithMemory 1 (refusal self.now) (status_number result) (K.state sink.old) (K.state sink.new) };

    /// Answers an input that was read.
    fn answer_whole<K: Sink>(&self, alloc: Global, input: &[u8], sink: &mut K) -> Status
        requires { length input.now ≤ limit }
        ensures { TellsBy (belongs self.now input.now) (status_number result) (K.state sink.old) (K.state sink.new) };

    /// It does nothing. The statuses that belong to an input are those of an answer, and to an input with more bytes its
    /// refusal belongs.
    fn keeps_the_laws(&self)
        ensures answers { (input : List ℕ) → AreAnswers (belongs self.now input) }
        ensures long { (input : List ℕ) → limit < length input → belongs self.now input 1 (refusal self.now) };
}

/// Reads the whole input, of at most `limit` bytes, and answers it.
pub fn answer_input<S: Source, K: Sink, W: InputWork>(
    alloc: Global,
    source: &mut S,
    sink: &mut K,
    limit: usize,
    work: &W,
) -> Status
    requires { limit ≡ W.limit }
    // The status and the text belong to the input, where no end failed and memory was there. At status 4 a front of that
    // text is written.
    ensures tells { Tells (W.belongs work.now) (S.left source.old) (status_number result)
        (K.state sink.old) (K.state sink.new) }
    // What it did to its ends, by the status.
    ensures ends { KeepsEnds limit (status_number result) (S.faults source.old) (S.faults source.new) (S.left source.old)
        (S.left source.new) (K.state sink.old) (K.state sink.new) }
{
    work.keeps_the_laws();
    match read_all(alloc, source, limit) {
        Err(ReadFault::Failed) => Status::SourceFailed,
        Err(ReadFault::NoMemory) => Status::NoMemory,
        Ok(ReadBytes::TooLong) => work.refuse_long(alloc, sink),
        Ok(ReadBytes::Whole(bytes)) => work.answer_whole(alloc, bytes.as_slice(), sink),
    }
}
