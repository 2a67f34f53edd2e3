//! `logical`: a script is read and run on two cameras, and what both did is written.
ghost use Rattle.std.specs.Prelude.{◌≡◌, IsTrue};
ghost use Rattle.cam_types.specs.Script.{is_valid};
ghost use Rattle.call_parts.specs.Answers.{OnDone, Tells, TellsBy};
ghost use Rattle.call_parts.specs.Ends.{KeepsEnds};
ghost use Rattle.logical_call.specs.Both.{at_first};
ghost use Rattle.logical_call.specs.Logical.{IsLogicalWhole, TellsBoth, TellsOfRun, TellsOfScript};
ghost use Rattle.call_parts.specs.Status.{status_number};

use crate::text::run_text;
use crate::{
    Logical, LogicalRefused, a_joint_run_has_one_pair_for_each_item, a_joint_run_is_a_run_of_both,
    a_joint_run_is_bounded,
};
use call_parts::{ScriptInput, ScriptWork, Status, answer, answer_input, refuse_script};
use cam_types::{SCRIPT_BYTES, Script};
use io_edge::{Sink, Source};
use run_model::a_complete_run_keeps_the_laws;
use std::alloc::Global;

/// The cause of a script that two cameras may not run side by side.
const NOT_LOGICAL: u8 = 61;

/// What `logical` makes of a script.
#[derive(Drop)]
struct BothCameras;

impl ScriptWork for BothCameras {
    ghost use Rattle.logical_call.specs.Logical.{TellsOfScript};

    ghost belongs = { λ _. TellsOfScript };

    fn answer_script<K: Sink>(&self, alloc: Global, script: Script, sink: &mut K) -> Status {
        run_script(alloc, &script, sink)
    }

    #[tactic(auto, using(crate::proofs::Telling::are_told))]
    fn keeps_the_law(&self) {}
}

/// Reads a script, runs it on two cameras side by side, and writes what both did. All memory is taken before the first
/// write.
pub fn logical_call<S: Source, K: Sink>(alloc: Global, source: &mut S, sink: &mut K) -> Status
    // At status 0 the source was read to its end, its bytes spell a logical script, and what was written is the joint
    // run that the script's picks choose, whole, and nothing else. Both parts are complete and keep the laws, and each
    // item has just one pair.
    ensures whole { OnDone IsLogicalWhole (status_number result) (S.left source.old) (S.left source.new) (K.state sink.old)
        (K.state sink.new) }
    // Each status and each text has its cause in the input's meaning.
    ensures tells { Tells TellsBoth (S.left source.old) (status_number result) (K.state sink.old) (K.state sink.new) }
    ensures ends { KeepsEnds SCRIPT_BYTES (status_number result) (S.faults source.old) (S.faults source.new) (S.left source.old)
        (S.left source.new) (K.state sink.old) (K.state sink.new) }
{
    a_complete_run_keeps_the_laws();
    a_joint_run_is_bounded();
    a_joint_run_has_one_pair_for_each_item();
    answer_input(alloc, source, sink, SCRIPT_BYTES, &ScriptInput(BothCameras))
}

/// Runs a script on two cameras, and writes what both did.
fn run_script<K: Sink>(alloc: Global, script: &Script, sink: &mut K) -> Status
    requires { IsTrue (is_valid script.now) }
    ensures { TellsBy (TellsOfScript script.now) (status_number result) (K.state sink.old) (K.state sink.new) }
{
    match Logical::open(alloc, script) {
        Err(LogicalRefused::NotLogical) => refuse_script(alloc, 0, NOT_LOGICAL, sink),
        Err(LogicalRefused::NoMemory) => Status::NoMemory,
        Ok(cameras) => run_cameras(alloc, cameras, sink),
    }
}

/// Runs two cameras to their end, and writes what both did.
fn run_cameras<K: Sink>(alloc: Global, mut cameras: Logical, sink: &mut K) -> Status
    requires { cameras ≡ at_first cameras.script }
    ensures { TellsBy (TellsOfRun cameras.script) (status_number result) (K.state sink.old) (K.state sink.new) }
{
    let text = run_text(alloc, &mut cameras);
    cameras.scrap();
    match text {
        Ok(text) => answer(sink, text.as_slice(), Status::Done),
        Err(_) => Status::NoMemory,
    }
}
