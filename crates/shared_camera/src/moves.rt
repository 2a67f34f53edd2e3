//! What a turn does to the service that it has.
ghost use Rattle.std.specs.Prelude.{◌≡◌, None, Some, IsTrue};
ghost use Rattle.run_model.specs.Jobs.{IsJobOut};
ghost use Rattle.run_model.specs.Played.{candidates};
ghost use Rattle.service_core.specs.Kinds.{first_of};
ghost use Rattle.shared_camera.specs.Choices.{first_of_kinds};
ghost use Rattle.shared_camera.specs.Moves.{AnswersChoice, AnswersExposure, AnswersFilling, Returns, are_alone};

use fill_jobs::{FillJob, FilledJob};
use picture_stages::ExposedJob;
use run_model::{Kind, StepName};
use service_core::{Service, Shuttered, Step, first};

/// Makes the first ready step of the first of these kinds that has one. They are of no job.
pub(crate) fn make_first(service: &mut Service, kinds: &[Kind]) -> Step
    requires { IsTrue (are_alone kinds.now) }
    ensures { AnswersChoice (first_of_kinds kinds.now) service.old result service.new }
{
    match first_in(service, kinds) {
        Some(step) => service.make(step),
        None => Step::NotReady,
    }
}

/// The first ready step of the first of these kinds that has one.
fn first_in(service: &Service, kinds: &[Kind]) -> Option<StepName>
    ensures { result ≡ first_of_kinds kinds.now (candidates service.now.script service.now.history) }
{
    let (kind, others) = kinds.split_first()?;
    match first(service, *kind) {
        Some(step) => Some(step),
        None => first_in(service, others),
    }
}

/// Begins the exposure that is due.
pub(crate) fn expose(service: &mut Service) -> Shuttered
    ensures { AnswersExposure service.old result service.new }
{
    match first(service, Kind::Shutter) {
        Some(_) => service.shutter(),
        None => Shuttered::NotBegun,
    }
}

/// Takes the first buffer that may be taken.
pub(crate) fn take_first(service: &mut Service) -> Option<FillJob>
    ensures { AnswersFilling service.old result service.new }
{
    match first(service, Kind::TakeFill) {
        Some(step) => take(service, step),
        None => None,
    }
}

/// Takes the buffer that this step takes.
fn take(service: &mut Service, step: StepName) -> Option<FillJob>
    requires { first_of Kind.TakeFill (candidates service.old.script service.old.history) ≡ Some step }
    ensures { AnswersFilling service.old result service.new }
{
    match step {
        StepName::TakeFill(frame, stream) => service.take_fill(frame, stream),
        _ => unreachable!(),
    }
}

/// Takes the readout back from the sensor.
pub(crate) fn end_exposure(service: &mut Service, job: ExposedJob)
    requires { IsJobOut service.old.script service.old.history job }
    ensures { Returns job service.old service.new }
{
    let _frame = job.frame();
    service.sensor_done(job);
}

/// Takes the buffer and the readout back from a stage.
pub(crate) fn end_fill(service: &mut Service, job: FilledJob)
    requires { IsJobOut service.old.script service.old.history job }
    ensures { Returns job service.old service.new }
{
    let _target = job.target();
    service.fill_done(job);
}
