//! `reprocess`: a plan is read, played and its run written.
ghost use Rattle.call_parts.specs.Answers.{OnDone, Tells};
ghost use Rattle.call_parts.specs.Ends.{KeepsEnds};
ghost use Rattle.reprocess_call.specs.Reprocess.{IsReprocessed, Reprocesses};
ghost use Rattle.call_parts.specs.Status.{status_number};

use crate::draft::Draft;
use crate::prepared::{play_prepared, prepare};
use call_parts::{Status, TextInput, TextWork, answer_input};
use io_edge::{Sink, Source};
use reprocess_model::{PLAN_BYTES, Plan};
use std::alloc::Global;
use std::marker::PhantomData;

impl TextWork for Draft {
    ghost use Rattle.reprocess_call.specs.Reprocess.{IsRunText};

    ghost is_told = { IsRunText };

    /// Plays a plan, and writes its run. All memory is taken before the first step.
    fn answer_text<K: Sink>(alloc: Global, plan: Plan, sink: &mut K) -> Status {
        match prepare(alloc, plan) {
            Ok(prepared) => play_prepared(prepared, sink),
            Err(_) => Status::NoMemory,
        }
    }
}

/// Reads a plan, plays it by its picks, and writes its run. All memory is taken before the first step.
pub fn reprocess_call<S: Source, K: Sink>(alloc: Global, source: &mut S, sink: &mut K) -> Status
    // At status 0 the source was read to its end, its bytes are a plan's text, and what was written is the complete run
    // that the plan's picks choose, and nothing else.
    ensures whole { OnDone IsReprocessed (status_number result) (S.left source.old) (S.left source.new) (K.state sink.old)
        (K.state sink.new) }
    // Each status and each text has its cause in the input's meaning.
    ensures tells { Tells Reprocesses (S.left source.old) (status_number result) (K.state sink.old) (K.state sink.new) }
    ensures ends { KeepsEnds PLAN_BYTES (status_number result) (S.faults source.old) (S.faults source.new) (S.left source.old)
        (S.left source.new) (K.state sink.old) (K.state sink.new) }
{
    answer_input(
        alloc,
        source,
        sink,
        PLAN_BYTES,
        &TextInput::<Draft>(PhantomData),
    )
}
