//! One step: the candidate that a number chooses.
ghost use Rattle.std.specs.Prelude.{◌≡◌, ◌<◌, ◌%◌, Some, length, IsTrue};
ghost use Rattle.run_model.specs.Played.{pick_at};
ghost use Rattle.run_model.specs.Ready.{is_ready};
ghost use Rattle.run_model.specs.History.{trace_of};
ghost use Rattle.service_core.specs.Candidates.{candidates_by};
ghost use Rattle.service_state.specs.Serving.{IsServing};
ghost use Rattle.trace_model.specs.Complete.{IsComplete};
ghost use Rattle.settle.specs.Stepping.{AnswersPick, HoldsJobs, picked};

use crate::steps::make;
use fill_jobs::Hands;
use run_model::StepName;
use run_rows::a_run_is_never_stuck;
use service_core::{Service, candidate_at, candidate_count, candidates_are_read_from_the_parts};
use service_state::ServiceState;

/// What became of a step.
#[derive(Clone, Copy)]
pub enum Stepped {
    /// The step was made.
    Done(StepName),
    /// The run is complete: nothing was done.
    Finished,
}

/// Makes the candidate whose number is the pick modulo how many there are. Finished exactly where the run is complete.
pub fn step_at(service: &mut Service, hands: &mut Hands, pick: u64) -> Stepped
    requires { HoldsJobs service.old hands.old }
    ensures stepped { AnswersPick service.old pick result service.new }
    ensures jobs { HoldsJobs service.new hands.new }
{
    if service.done() {
        return Stepped::Finished;
    }
    let step = choose(service, pick);
    make(service, hands, step);
    Stepped::Done(step)
}

/// Makes the candidate that the script's next pick chooses.
pub fn pick_step(service: &mut Service, hands: &mut Hands) -> Stepped
    requires { HoldsJobs service.old hands.old }
    ensures stepped { AnswersPick service.old (pick_at service.old.script (length service.old.history)) result
        service.new }
    ensures jobs { HoldsJobs service.new hands.new }
{
    let pick = u64::from(service.pick());
    step_at(service, hands, pick)
}

/// The candidate that a pick chooses, of a run that isn't complete.
fn choose(service: &Service, pick: u64) -> StepName
    requires { ¬ IsComplete service.now.script (trace_of service.now.history) }
    ensures picked { picked service.now pick ≡ Some result }
    ensures ready { IsTrue (is_ready service.now.script service.now.history result) }
{
    service.is_a_run();
    a_run_is_never_stuck();
    candidates_are_read_from_the_parts();
    let state = service.parts();
    match candidate_at(state, number_of(state, pick)) {
        Some(step) => step,
        None => unreachable!(),
    }
}

/// The number of the candidate that a pick chooses, where there is one. The first is chosen without counting the others.
fn number_of(state: &ServiceState, pick: u64) -> u64
    requires serving { IsServing state.now }
    requires some { 0 < length (candidates_by state.now.script state.now.parts) }
    ensures { result ≡ pick % length (candidates_by state.now.script state.now.parts) }
{
    if pick == 0 {
        return 0;
    }
    pick % candidate_count(state)
}
