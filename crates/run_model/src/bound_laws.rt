//! Laws of the bound: functions that do nothing, and whose contracts hold of every script and every history.
ghost use Rattle.std.specs.Prelude.{List};
ghost use Rattle.cam_types.specs.declared.script.Script.{Script as SomeScript};
ghost use Rattle.trace_model.specs.declared.entry.Entry.{Entry as SomeEntry};
ghost use Rattle.run_model.specs.declared.step.Move.{Move as SomeMove};
ghost use Rattle.run_model.specs.Laws.{BoundsEntries, BoundsMoves, BoundsMovesByFrames, LeavesRoom, RunsLegally};

/// The trace of a run is legal: each step adds the entry that is due.
#[tactic(auto, using(crate::proofs::Legal::runs_legally))]
pub fn runs_are_legal()
    ensures { (script : SomeScript) (h : List SomeMove) → RunsLegally script h }
{}

/// A legal trace has at most 21 entries for each frame, two for each command, and two more.
#[tactic(auto, using(crate::proofs::Entries::entries_bounded))]
pub fn traces_are_bounded()
    ensures { (script : SomeScript) (past : List SomeEntry) → BoundsEntries script past }
{}

/// A run has at most so many moves as the script's bound, whatever the order of its steps: so every run ends.
#[tactic(auto, using(crate::proofs::Moves::moves_bounded, crate::proofs::Moves::moves_few))]
pub fn runs_are_bounded()
    ensures by_frames { (script : SomeScript) (h : List SomeMove) → BoundsMovesByFrames script h }
    ensures bound { (script : SomeScript) (h : List SomeMove) → BoundsMoves script h }
{}

/// A service that took room for so many moves at the start has room for each move that it makes.
#[tactic(auto, using(crate::proofs::Moves::moves_leave_room))]
pub fn each_move_has_room()
    ensures { (script : SomeScript) (m : SomeMove) (h : List SomeMove) → LeavesRoom script m h }
{}
