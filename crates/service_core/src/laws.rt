//! Laws on the steps that are ready: functions that do nothing, and whose contracts hold of every script, every run and
//! all parts of a service.
ghost use Rattle.std.specs.Prelude.{◌≡◌, List, map};
ghost use Rattle.std.specs.List.{flat_map};
ghost use Rattle.cam_types.specs.declared.script.Script.{Script as SomeScript};
ghost use Rattle.run_model.specs.declared.step.Move.{Move as SomeMove};
ghost use Rattle.run_model.specs.Played.{candidates};
ghost use Rattle.run_model.specs.Run.{IsRun};
ghost use Rattle.service_parts.specs.Parts.{Parts as SomeParts, parts};
ghost use Rattle.service_state.specs.Serving.{unsignalled};
ghost use Rattle.service_core.specs.Candidates.{IsSingle, all_kinds, candidates_by, ready_in};

use run_model::{Kind, StepName};

/// The candidates after a run are those that the parts give, in the same order.
#[tactic(auto, using(crate::proofs::CandidatesRead::candidates_read))]
pub fn candidates_are_read_from_the_parts()
    ensures { (script : SomeScript) (h : List SomeMove) →
        IsRun script h → candidates script h ≡ candidates_by script (parts script h) }
{}

/// The candidates are the steps of each kind that are ready, one kind after the other.
#[tactic(auto, using(crate::proofs::ByKind::kinds_of_candidates))]
pub fn kinds_of_candidates()
    ensures { (script : SomeScript) (p : SomeParts) →
        candidates_by script p ≡ flat_map (ready_in script p) all_kinds }
{}

/// Of the signals those are ready whose fence was released and isn't signalled, in the order of fences.
#[tactic(auto, using(crate::proofs::ByKind::signals_ready))]
pub fn unsignalled_fences_may_be_signalled()
    ensures { (script : SomeScript) (p : SomeParts) →
        ready_in script p Kind.Signal
        ≡ map (λ f. StepName.Signal (record { 0 = f })) (unsignalled 0 p.buffers.signalled) }
{}

/// Of a kind with one step there is that step where it is ready, and else none.
pub fn single_steps_are_ready_or_not()
    ensures send { (script : SomeScript) (p : SomeParts) →
        IsSingle script p Kind.Send StepName.Send }
    ensures client { (script : SomeScript) (p : SomeParts) →
        IsSingle script p Kind.Client StepName.Client }
    ensures drop { (script : SomeScript) (p : SomeParts) →
        IsSingle script p Kind.DropQueued StepName.DropQueued }
    ensures shutter { (script : SomeScript) (p : SomeParts) →
        IsSingle script p Kind.Shutter StepName.Shutter }
{}
