//! Laws on what the moves of a run make of the device's rows: functions that do nothing, and whose contracts hold of
//! every script and every run of it.
ghost use Rattle.std.specs.Prelude.{◌≡◌, ◌∷◌, List, false, filter};
ghost use Rattle.cam_types.specs.Rows.{is_open};
ghost use Rattle.cam_types.specs.declared.script.Script.{Script as SomeScript};
ghost use Rattle.run_model.specs.History.{trace_of};
ghost use Rattle.run_model.specs.Rows.{rows};
ghost use Rattle.run_model.specs.Run.{IsRun};
ghost use Rattle.run_model.specs.declared.step.Move.{Move as SomeMove};
ghost use Rattle.run_rows.specs.Changes.{after, may_end};
ghost use Rattle.state_facts.specs.Turns.{settings_next};
ghost use Rattle.trace_model.specs.Queue.{next};

/// After each move of a run the rows are those before it with the move's change, without those that are done with. A
/// move whose entry can't be the last of a frame leaves them all.
#[tactic(auto, using(crate::proofs::Moved::changed_is, crate::proofs::Whole::whole_is))]
pub fn each_move_changes_the_rows()
    ensures rows { (script : SomeScript) (m : SomeMove) (h : List SomeMove) → IsRun script (m ∷ h) →
        rows script (m ∷ h) ≡ filter is_open (after (settings_next (next script (trace_of h))) m (rows script h)) }
    ensures whole { (script : SomeScript) (m : SomeMove) (h : List SomeMove) → IsRun script (m ∷ h) →
        may_end m.entry ≡ false →
        rows script (m ∷ h) ≡ after (settings_next (next script (trace_of h))) m (rows script h) }
{}
