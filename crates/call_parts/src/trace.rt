//! A call that reads a trace, or a script and a trace.
ghost use Rattle.std.specs.Prelude.{◌≤◌, ℕ, List, length};
ghost use Rattle.call_parts.specs.Answers.{AreAnswers, TellsBy};
ghost use Rattle.call_parts.specs.Status.{status_number};

use crate::{InputWork, Status, TOO_LONG, refuse_trace};
use io_edge::Sink;
use std::alloc::Global;

/// What a call makes of an input that may be a trace.
pub trait TraceWork {
    /// The status and the whole text that belong to an input that isn't too long.
    ghost belongs: { Self → List ℕ → ℕ → List ℕ → Type 0 };

    /// Answers an input.
    fn answer_trace<K: Sink>(&self, alloc: Global, input: &[u8], sink: &mut K) -> Status
        requires { length input.now ≤ 134217728 }
        ensures { TellsBy (belongs self.now input.now) (status_number result) (K.state sink.old) (K.state sink.new) };

    /// It does nothing. The statuses that belong to an input are those of an answer.
    fn keeps_the_law(&self)
        ensures { (input : List ℕ) → AreAnswers (belongs self.now input) };
}

/// An input of at most `TRACE_BYTES`, for what a call makes of that. One with more bytes is refused as a trace.
#[derive(Drop)]
pub struct TraceInput<W>(pub W);

impl<W: TraceWork> InputWork for TraceInput<W> {
    ghost use Rattle.call_parts.specs.Meanings.{OfLimited};
    ghost use Rattle.call_parts.specs.Lines.{refused_trace_text};

    ghost limit = { 134217728 };

    ghost belongs = { λ work. OfLimited (refused_trace_text 0 45) (W.belongs work.0) };

    ghost refusal = { λ _. refused_trace_text 0 45 };

    fn refuse_long<K: Sink>(&self, alloc: Global, sink: &mut K) -> Status {
        refuse_trace(alloc, 0, TOO_LONG, sink)
    }

    fn answer_whole<K: Sink>(&self, alloc: Global, input: &[u8], sink: &mut K) -> Status {
        self.0.answer_trace(alloc, input, sink)
    }

    #[tactic(auto, using(crate::proofs::Meanings::of_limited, crate::proofs::Meanings::long_limited))]
    fn keeps_the_laws(&self) {
        self.0.keeps_the_law();
    }
}
