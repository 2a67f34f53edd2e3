//! A step that is ready is made, whatever its kind.
ghost use Rattle.std.specs.Prelude.{◌≡◌, false, IsTrue};
ghost use Rattle.run_model.specs.Ready.{is_ready};
ghost use Rattle.service_parts.specs.Outs.{moves_a_job};
ghost use Rattle.settle.specs.Stepping.{HoldsJobs, MakesStep};

use crate::job_steps::{end_exposure, end_fill, expose, fill};
use fill_jobs::Hands;
use run_model::StepName;
use service_core::{Service, Step};
use service_parts::other_moves_leave_the_jobs;

/// Makes a step that is ready.
pub(crate) fn make(service: &mut Service, hands: &mut Hands, step: StepName)
    requires jobs { HoldsJobs service.old hands.old }
    requires ready { IsTrue (is_ready service.old.script service.old.history step) }
    ensures made { MakesStep service.old service.new step }
    ensures jobs { HoldsJobs service.new hands.new }
{
    match step {
        StepName::Shutter => expose(service, hands),
        StepName::SensorDone(frame) => end_exposure(service, hands, frame),
        StepName::TakeFill(frame, stream) => fill(service, hands, frame, stream),
        StepName::FillDone(frame, stream) => end_fill(service, hands, frame, stream),
        _ => make_alone(service, hands, step),
    }
}

/// Makes a step that is ready and is of no job.
fn make_alone(service: &mut Service, hands: &Hands, step: StepName)
    requires alone { moves_a_job step ≡ false }
    requires jobs { HoldsJobs service.old hands.now }
    requires ready { IsTrue (is_ready service.old.script service.old.history step) }
    ensures made { MakesStep service.old service.new step }
    ensures jobs { HoldsJobs service.new hands.now }
{
    other_moves_leave_the_jobs();
    match service.make(step) {
        Step::Did(_) => service.is_a_run(),
        Step::NotReady => unreachable!(),
    }
}
