//! The steps that take a job out, which then is in the player's hands, and those that give one back: it is worked on
//! just before.
ghost use Rattle.std.specs.Prelude.{◌≡◌, Some, IsTrue, option_map, slice_get};
ghost use Rattle.fill_jobs.specs.Held.{name_of};
ghost use Rattle.run_model.specs.declared.step.StepName.TheVariants.{FillDone, SensorDone, Shutter, TakeFill};
ghost use Rattle.run_model.specs.Ready.{is_ready};
ghost use Rattle.settle.specs.Stepping.{EndsJob, HoldsJobs, MakesStep};

use cam_types::{FrameNo, StreamIx};
use fill_jobs::{Hands, JobName, the_first_job_is_found_by_its_frame};
use service_core::{Service, Shuttered};
use service_parts::{a_move_gives_a_job_back, jobs_that_end_are_out};

/// Begins an exposure.
pub(crate) fn expose(service: &mut Service, hands: &mut Hands)
    requires jobs { HoldsJobs service.old hands.old }
    requires ready { IsTrue (is_ready service.old.script service.old.history Shutter) }
    ensures made { MakesStep service.old service.new Shutter }
    ensures jobs { HoldsJobs service.new hands.new }
{
    match service.shutter() {
        Shuttered::Began(_, job) => {
            service.is_a_run();
            hands.put_sensor(job);
        }
        Shuttered::NotBegun => unreachable!(),
    }
}

/// Ends an exposure: the readout is taken.
pub(crate) fn end_exposure(service: &mut Service, hands: &mut Hands, frame: FrameNo)
    requires jobs { HoldsJobs service.old hands.old }
    requires ready { IsTrue (is_ready service.old.script service.old.history (SensorDone frame)) }
    ensures made { MakesStep service.old service.new (SensorDone frame) }
    ensures jobs { HoldsJobs service.new hands.new }
{
    service.is_a_run();
    jobs_that_end_are_out();
    a_move_gives_a_job_back();
    match hands.take_sensor(frame) {
        Some(job) => {
            service.sensor_done(job.expose());
            service.is_a_run();
        }
        None => unreachable!(),
    }
}

/// Begins a fill.
pub(crate) fn fill(service: &mut Service, hands: &mut Hands, frame: FrameNo, stream: StreamIx)
    requires jobs { HoldsJobs service.old hands.old }
    requires ready { IsTrue (is_ready service.old.script service.old.history (TakeFill frame stream)) }
    ensures made { MakesStep service.old service.new (TakeFill frame stream) }
    ensures jobs { HoldsJobs service.new hands.new }
{
    match service.take_fill(frame, stream) {
        Some(job) => {
            service.is_a_run();
            hands.put_fill(job);
        }
        None => unreachable!(),
    }
}

/// Ends a fill: the picture is drawn.
pub(crate) fn end_fill(service: &mut Service, hands: &mut Hands, frame: FrameNo, stream: StreamIx)
    requires jobs { HoldsJobs service.old hands.old }
    requires ready { IsTrue (is_ready service.old.script service.old.history (FillDone frame stream)) }
    ensures made { MakesStep service.old service.new (FillDone frame stream) }
    ensures jobs { HoldsJobs service.new hands.new }
{
    service.is_a_run();
    jobs_that_end_are_out();
    a_move_gives_a_job_back();
    match hands.take_fill(frame, stream) {
        Some(job) => {
            service.fill_done(hands.fill(job));
            service.is_a_run();
        }
        None => unreachable!(),
    }
}

/// Ends the first job in hand.
pub(crate) fn end_job(service: &mut Service, hands: &mut Hands, job: JobName)
    requires jobs { HoldsJobs service.old hands.old }
    requires first { option_map name_of (slice_get hands.old 0) ≡ Some job }
    ensures ended { EndsJob service.old service.new }
    ensures jobs { HoldsJobs service.new hands.new }
{
    the_first_job_is_found_by_its_frame();
    match job.stream {
        Some(stream) => end_fill(service, hands, job.frame, stream),
        None => end_exposure(service, hands, job.frame),
    }
}
