//! Laws on played runs and on the jobs that are out: functions that do nothing, and whose contracts hold of every script
//! and every history.
ghost use Rattle.std.specs.Prelude.{◌≡◌, List, [], Some, length, IsTrue};
ghost use Rattle.cam_types.specs.declared.script.Script.{Script as SomeScript};
ghost use Rattle.service_parts.specs.Outs.{AreOut};
ghost use Rattle.run_model.specs.declared.step.Move.{Move as SomeMove};
ghost use Rattle.run_model.specs.History.{trace_of};
ghost use Rattle.run_model.specs.Played.{IsPlayedRun, chosen, pick_at};
ghost use Rattle.run_model.specs.Ready.{is_ready};
ghost use Rattle.service_core.specs.Answers.{IsNoJobOut};
ghost use Rattle.settle.specs.Sending.{SendsFirst};

use run_model::StepName;

/// Where no job is out, empty hands have just the jobs that are out: what `play`, `settle`, `finish` and `close` ask of
/// a service and of `Hands::new()`.
#[tactic(auto, using(crate::proofs::Empty::empty_hold))]
pub fn empty_hands_have_all_jobs_where_none_is_out()
    ensures { (script : SomeScript) (h : List SomeMove) → IsNoJobOut h → AreOut script h [] }
{}

/// A script has one played run.
#[tactic(auto, using(crate::proofs::OneRun::one_played_run))]
pub fn the_picks_make_one_run()
    ensures { (script : SomeScript) (a b : List SomeMove) → IsPlayedRun script a → IsPlayedRun script b → a ≡ b }
{}

/// Where the pick is 0 a send that is ready is the step that is chosen. So in the played run of a script without picks no
/// entry but a send stands where a send was due.
#[tactic(auto, using(crate::proofs::OneRun::send_first, crate::proofs::OneRun::run_sends_first))]
pub fn sends_go_first()
    ensures chosen { (script : SomeScript) (h : List SomeMove) → pick_at script (length h) ≡ 0
        → IsTrue (is_ready script h StepName.Send) → chosen script h ≡ Some StepName.Send }
    ensures entries { (script : SomeScript) (h : List SomeMove) → script.picks ≡ [] → IsPlayedRun script h
        → SendsFirst script (trace_of h) }
{}
