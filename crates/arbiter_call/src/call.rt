//! `arbiter`: what clients ask of cameras is answered, and their sessions are played.
ghost use Rattle.std.specs.Prelude.{IfOk, IsTrue};
ghost use Rattle.call_parts.specs.Answers.{OnDone, Tells};
ghost use Rattle.call_parts.specs.Ends.{KeepsEnds};
ghost use Rattle.arbiter_call.specs.Valid.{is_valid};
ghost use Rattle.arbiter_call.specs.Arbitrates.{Arbitrates, IsArbitrated, IsArbitratedText};
ghost use Rattle.call_parts.specs.Status.{status_number};

use crate::draft::Draft;
use crate::sessions::tell_log;
use crate::text_sink::TextSink;
use crate::{ArbiterText, arbitrate, every_log_keeps_the_laws};
use call_parts::{Status, TextInput, TextWork, answer, answer_input};
use cam_types::{NoMemory, SCRIPT_BYTES};
use io_edge::{Sink, Source};
use std::alloc::Global;
use std::marker::PhantomData;

/// Reads what clients ask of cameras, answers it, plays each session, and writes the log with the sessions' summaries.
/// All memory is taken before the first write.
pub fn arbiter_call<S: Source, K: Sink>(alloc: Global, source: &mut S, sink: &mut K) -> Status
    // At status 0 the source was read to its end, its bytes say what clients ask, and what was written is the whole text
    // of their log, with the summary of each session's played run, which is complete and keeps the laws, and nothing
    // else.
    ensures whole { OnDone IsArbitrated (status_number result) (S.left source.old) (S.left source.new) (K.state sink.old)
        (K.state sink.new) }
    // Each status and each text has its cause in the input's meaning.
    ensures tells { Tells Arbitrates (S.left source.old) (status_number result) (K.state sink.old) (K.state sink.new) }
    ensures ends { KeepsEnds SCRIPT_BYTES (status_number result) (S.faults source.old) (S.faults source.new) (S.left source.old)
        (S.left source.new) (K.state sink.old) (K.state sink.new) }
{
    answer_input(
        alloc,
        source,
        sink,
        SCRIPT_BYTES,
        &TextInput::<Draft>(PhantomData),
    )
}

impl TextWork for Draft {
    ghost use Rattle.arbiter_call.specs.Arbitrates.{IsArbitratedText};

    ghost is_told = { IsArbitratedText };

    fn answer_text<K: Sink>(alloc: Global, text: ArbiterText, sink: &mut K) -> Status {
        match text_of(alloc, &text) {
            Ok(told) => answer(sink, told.bytes(), Status::Done),
            Err(_) => Status::NoMemory,
        }
    }
}

/// The whole text of what clients ask. It fails only for want of memory.
fn text_of(alloc: Global, text: &ArbiterText) -> Result<TextSink, NoMemory>
    requires { IsTrue (is_valid text.now) }
    ensures { IfOk result (λ told. IsArbitratedText text.now told.text.items) }
{
    every_log_keeps_the_laws();
    let arbiter = arbitrate(alloc, text.cameras, text.lines.as_slice())?;
    arbiter.keeps_the_laws();
    tell_log(alloc, arbiter.log())
}
