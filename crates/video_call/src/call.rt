//! `video` and `picture`: a script is read and played, and what is wanted of its run is written.
ghost use Rattle.call_parts.specs.Answers.{OnDone, Tells};
ghost use Rattle.call_parts.specs.Ends.{KeepsEnds};
ghost use Rattle.video_call.specs.Shows.{IsShown, Shows};
ghost use Rattle.call_parts.specs.Status.{status_number};

use crate::chosen::played;
use crate::wanted::Wanted;
use crate::write::write_chosen;
use call_parts::{ScriptInput, ScriptWork, Status, answer_input};
use cam_types::{FrameNo, SCRIPT_BYTES, Script, StreamIx};
use io_edge::{Sink, Source};
use run_model::a_complete_run_keeps_the_laws;
use std::alloc::Global;

/// Reads a script, plays it and writes the pictures of the stream's good buffers in the order of delivery: of a YUV
/// stream as YUV4MPEG2, of a RAW16 stream as PGM pictures one behind the other. Where there are none, or not of one
/// format and size, a line refuses it.
pub fn video_call<S: Source, K: Sink>(
    alloc: Global,
    stream: StreamIx,
    source: &mut S,
    sink: &mut K,
) -> Status
    // The headline: at status 0 the source was read to its end, its bytes spell a script, and what was written is the
    // whole film of the stream in the script's played run, which is complete and keeps the laws, and nothing else.
    ensures whole { OnDone (IsShown (Wanted.Film stream)) (status_number result) (S.left source.old) (S.left source.new)
        (K.state sink.old) (K.state sink.new) }
    // Each status and each text has its cause in the input's meaning.
    ensures tells { Tells (Shows (Wanted.Film stream)) (S.left source.old) (status_number result)
        (K.state sink.old) (K.state sink.new) }
    ensures ends { KeepsEnds SCRIPT_BYTES (status_number result) (S.faults source.old) (S.faults source.new) (S.left source.old)
        (S.left source.new) (K.state sink.old) (K.state sink.new) }
{
    a_complete_run_keeps_the_laws();
    let wanted = Wanted::Film { stream };
    answer_input(alloc, source, sink, SCRIPT_BYTES, &ScriptInput(wanted))
}

/// Reads a script, plays it and writes the picture that a good buffer of the frame brought for the stream: of a RAW16
/// stream as PGM, of a YUV stream as PPM. Where there is none, a line refuses it.
pub fn picture_call<S: Source, K: Sink>(
    alloc: Global,
    frame: FrameNo,
    stream: StreamIx,
    source: &mut S,
    sink: &mut K,
) -> Status
    // At status 0 the source was read to its end, its bytes spell a script, and what was written is the whole picture of
    // the frame for the stream in the script's played run, which is complete and keeps the laws, and nothing else.
    ensures whole { OnDone (IsShown (Wanted.Picture frame stream)) (status_number result) (S.left source.old)
        (S.left source.new) (K.state sink.old) (K.state sink.new) }
    // Each status and each text has its cause in the input's meaning.
    ensures tells { Tells (Shows (Wanted.Picture frame stream)) (S.left source.old) (status_number result)
        (K.state sink.old) (K.state sink.new) }
    ensures ends { KeepsEnds SCRIPT_BYTES (status_number result) (S.faults source.old) (S.faults source.new) (S.left source.old)
        (S.left source.new) (K.state sink.old) (K.state sink.new) }
{
    a_complete_run_keeps_the_laws();
    let wanted = Wanted::Picture { frame, stream };
    answer_input(alloc, source, sink, SCRIPT_BYTES, &ScriptInput(wanted))
}

impl ScriptWork for Wanted {
    ghost use Rattle.video_call.specs.Shows.{ShowsRun};

    ghost belongs = { ShowsRun };

    fn answer_script<K: Sink>(&self, alloc: Global, script: Script, sink: &mut K) -> Status {
        match played(alloc, *self, script) {
            Ok(chosen) => write_chosen(alloc, *self, chosen, sink),
            Err(_) => Status::NoMemory,
        }
    }

    #[tactic(auto, using(crate::proofs::Telling::are_shown))]
    fn keeps_the_law(&self) {}
}
