//! The questions.
ghost use Rattle.std.specs.Prelude.{◌≡◌, IfOk};
ghost use Rattle.run_model.specs.Played.{candidates as candidates_of};
ghost use Rattle.run_model.specs.Ready.{is_ready as is_ready_after};
ghost use Rattle.service_core.specs.Kinds.{first_of};

use crate::Service;
use crate::choice::{candidate_at, candidate_count, first_ready};
use crate::laws::{candidates_are_read_from_the_parts, kinds_of_candidates};
use cam_types::NoMemory;
use run_model::{Kind, StepName};
use service_parts::each_step_is_read_from_the_parts;
use std::alloc::Global;

/// Whether the step is ready.
pub fn is_ready(service: &Service, step: StepName) -> bool
    ensures { result ≡ is_ready_after service.now.script service.now.history step }
{
    service.is_a_run();
    each_step_is_read_from_the_parts();
    service.parts().is_ready(step)
}

/// The first step of the kind that is ready, in the order of candidates. None exactly where none is.
pub fn first(service: &Service, kind: Kind) -> Option<StepName>
    ensures { result ≡ first_of kind (candidates_of service.now.script service.now.history) }
{
    service.is_a_run();
    candidates_are_read_from_the_parts();
    kinds_of_candidates();
    first_ready(service.parts(), kind)
}

/// The steps that are ready, in the order of candidates.
pub fn candidates(alloc: Global, service: &Service) -> Result<Vec<StepName>, NoMemory>
    ensures { IfOk result (λ steps. steps.items ≡ candidates_of service.now.script service.now.history) }
{
    service.is_a_run();
    candidates_are_read_from_the_parts();
    let state = service.parts();
    let count = candidate_count(state);
    let mut steps = Vec::new(alloc);
    for number in 0..count {
        match candidate_at(state, number) {
            Some(step) => steps.push(step)?,
            None => unreachable!(),
        }
    }
    Ok(steps)
}
