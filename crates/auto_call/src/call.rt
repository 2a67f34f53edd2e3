//! `auto`: an exposure is searched for each scene, and the frames of the searches are played.
ghost use Rattle.std.specs.Prelude.{◌≡◌, ◌⊎◌, IsTrue};
ghost use Rattle.cam_types.specs.Script.{is_valid as is_valid_script};
ghost use Rattle.call_parts.specs.Answers.{OnDone, Tells, Untouched};
ghost use Rattle.call_parts.specs.Ends.{KeepsEnds};
ghost use Rattle.auto_call.specs.Auto.{Captures, IsCaptured};
ghost use Rattle.play_calls.specs.Says.{PlaysBehind};
ghost use Rattle.call_parts.specs.Status.{status_number};

use crate::draft::Draft;
use crate::{AutoText, Drawn, draw_up};
use call_parts::{Output, Status, TextInput, TextWork, answer_input};
use cam_types::{SCRIPT_BYTES, Script};
use io_edge::{Sink, Source};
use play_calls::{play_behind, prepare};
use run_model::a_complete_run_keeps_the_laws;
use std::alloc::Global;
use std::marker::PhantomData;

/// Reads scenes, searches an exposure for each, and writes what was found of each frame and scene, and the trace of the
/// frames.
pub fn auto_call<S: Source, K: Sink>(alloc: Global, source: &mut S, sink: &mut K) -> Status
    // At status 0 the source was read to its end, its bytes ask for scenes, and what was written is the whole text of
    // their frames, with the trace of the frames' played run, which is complete and keeps the laws, and nothing else.
    ensures whole { OnDone IsCaptured (status_number result) (S.left source.old) (S.left source.new) (K.state sink.old)
        (K.state sink.new) }
    // Each status and each text has its cause in the input's meaning.
    ensures tells { Tells Captures (S.left source.old) (status_number result) (K.state sink.old) (K.state sink.new) }
    ensures ends { KeepsEnds SCRIPT_BYTES (status_number result) (S.faults source.old) (S.faults source.new) (S.left source.old)
        (S.left source.new) (K.state sink.old) (K.state sink.new) }
{
    a_complete_run_keeps_the_laws();
    answer_input(
        alloc,
        source,
        sink,
        SCRIPT_BYTES,
        &TextInput::<Draft>(PhantomData),
    )
}

impl TextWork for Draft {
    ghost use Rattle.auto_call.specs.Auto.{IsCapturedText};

    ghost is_told = { IsCapturedText };

    /// Searches the scenes, and writes their frames. All memory is taken before the first write.
    fn answer_text<K: Sink>(alloc: Global, text: AutoText, sink: &mut K) -> Status {
        match draw_up(alloc, &text) {
            Ok(Drawn { front, script }) => play_frames(alloc, front.as_slice(), script, sink),
            Err(_) => Status::NoMemory,
        }
    }
}

/// Plays the frames, and writes their trace behind the lines.
fn play_frames<K: Sink>(alloc: Global, front: &[u8], script: Script, sink: &mut K) -> Status
    requires { IsTrue (is_valid_script script) }
    ensures { ((status_number result ≡ 5) × Untouched (K.state sink.old) (K.state sink.new))
        ⊎ PlaysBehind front.now Output.Trace script (status_number result) (K.state sink.old) (K.state sink.new) }
{
    match prepare(alloc, script) {
        Ok(prepared) => play_behind(prepared, front, Output::Trace, sink),
        Err(_) => Status::NoMemory,
    }
}
