//! Laws on the parts of a service: functions that do nothing, and whose contracts hold of every script and every run.
ghost use Rattle.std.specs.Prelude.{◌≡◌, ◌↔◌, ◌∷◌, ℕ, [], List, IsTrue};
ghost use Rattle.cam_types.specs.declared.script.Script.{Script as SomeScript};
ghost use Rattle.run_model.specs.declared.step.Move.{Move as SomeMove};
ghost use Rattle.run_model.specs.declared.step.StepName.{StepName as SomeStep};
ghost use Rattle.run_model.specs.History.{trace_of};
ghost use Rattle.run_model.specs.Ready.{move_of};
ghost use Rattle.run_model.specs.Run.{IsRun};
ghost use Rattle.service_parts.specs.After.{is_over, parts_after, picture_in};
ghost use Rattle.service_parts.specs.Moves.{move_by};
ghost use Rattle.service_parts.specs.Parts.{no_parts, parts};
ghost use Rattle.service_parts.specs.Pictures.{client_picture};
ghost use Rattle.trace_model.specs.Complete.{IsComplete};

/// Each step is ready exactly where the parts say so, and makes the move that they say.
#[tactic(auto, using(crate::proofs::Read::move_read))]
pub fn each_step_is_read_from_the_parts()
    ensures { (script : SomeScript) (h : List SomeMove) (step : SomeStep) →
        IsRun script h → move_of script h step ≡ move_by script (parts script h) step }
{}

/// Before the first move nothing stands. After each move of a run the parts are what the move makes of those before it.
#[tactic(auto, using(crate::proofs::Changed::changed_parts))]
pub fn each_move_changes_the_parts()
    ensures first { (script : SomeScript) → parts script [] ≡ no_parts }
    ensures after { (script : SomeScript) (m : SomeMove) (h : List SomeMove) →
        IsRun script (m ∷ h) → parts script (m ∷ h) ≡ parts_after script m (parts script h) }
{}

/// The picture that the client has in each buffer is read from the parts.
#[tactic(auto, using(crate::proofs::Shown::shown_read))]
pub fn the_clients_pictures_are_read_from_the_parts()
    ensures { (script : SomeScript) (h : List SomeMove) (b : ℕ) →
        IsRun script h → client_picture script (trace_of h) b ≡ picture_in (parts script h) b }
{}

/// The trace of a run is complete exactly where the parts say so.
#[tactic(auto, using(crate::proofs::Complete::complete_read))]
pub fn the_end_is_read_from_the_parts()
    ensures { (script : SomeScript) (h : List SomeMove) →
        IsRun script h → (IsComplete script (trace_of h) ↔ IsTrue (is_over script (parts script h))) }
{}
