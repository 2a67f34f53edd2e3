//! `candidates`: a script is read and played, and the candidates before each of its moves are written.
ghost use Rattle.call_parts.specs.Answers.{OnDone, Tells};
ghost use Rattle.call_parts.specs.Ends.{KeepsEnds};
ghost use Rattle.run_views.specs.Says.{IsWhole, Says};
ghost use Rattle.call_parts.specs.Status.{status_number};

use crate::opened::Opened;
use call_parts::{ScriptInput, ScriptWork, Status, answer_input};
use cam_types::{SCRIPT_BYTES, Script};
use io_edge::{Sink, Source};
use run_model::a_complete_run_keeps_the_laws;
use std::alloc::Global;

/// What `candidates` makes of a script.
#[derive(Drop)]
struct Candidates;

impl ScriptWork for Candidates {
    ghost use Rattle.run_views.specs.Says.{SaysOfScript};

    ghost belongs = { λ _. SaysOfScript };

    fn answer_script<K: Sink>(&self, alloc: Global, script: Script, sink: &mut K) -> Status {
        match Opened::new(alloc, script) {
            Ok(opened) => opened.tell(sink),
            Err(_) => Status::NoMemory,
        }
    }

    fn keeps_the_law(&self) {}
}

/// Reads a script, plays it as `play` does, and writes for each move the candidates before it and the line that it adds
/// to the trace. All memory is taken before the first write.
pub fn candidates_call<S: Source, K: Sink>(alloc: Global, source: &mut S, sink: &mut K) -> Status
    // The headline: at status 0 the source was read to its end, its bytes spell a script, and what was written is the
    // whole text of the script's played run, which is complete and keeps the laws, and nothing else.
    ensures whole { OnDone IsWhole (status_number result) (S.left source.old) (S.left source.new) (K.state sink.old)
        (K.state sink.new) }
    // Each status and each text has its cause in the input's meaning.
    ensures tells { Tells Says (S.left source.old) (status_number result) (K.state sink.old) (K.state sink.new) }
    ensures ends { KeepsEnds SCRIPT_BYTES (status_number result) (S.faults source.old) (S.faults source.new) (S.left source.old)
        (S.left source.new) (K.state sink.old) (K.state sink.new) }
{
    a_complete_run_keeps_the_laws();
    answer_input(alloc, source, sink, SCRIPT_BYTES, &ScriptInput(Candidates))
}
