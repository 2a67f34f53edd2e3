//! A step that was made is moves_after in the log.
ghost use Rattle.std.specs.Prelude.{◌≡◌, ◌<◌, IsSome, false, length};
ghost use Rattle.run_model.specs.History.{is_silent};
ghost use Rattle.service_core.specs.Inside.{moves_after};
ghost use Rattle.service_core.specs.Answers.{step_of};

use crate::step::Step;
use run_model::{RoomLog, StepName};
use trace_model::Entry;

/// Notes the move of a step that added an entry, where it was made, and answers the step.
pub(crate) fn note(log: &mut RoomLog, step: StepName, entry: Option<Entry>) -> Step
    requires adds { is_silent step ≡ false }
    requires room { IsSome entry → length log.old.moves < log.old.limit }
    ensures answer { result ≡ step_of entry }
    ensures log { log.new ≡ moves_after step entry log.old }
{
    match entry {
        Some(entry) => {
            log.push(step, entry);
            Step::Did(entry)
        }
        None => Step::NotReady,
    }
}
