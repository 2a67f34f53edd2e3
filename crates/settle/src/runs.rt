//! Runs to their end: by the script's picks, or by the first candidates.
ghost use Rattle.std.specs.Prelude.{◌≡◌, []};
ghost use Rattle.run_model.specs.Played.{IsPlayed, IsPlayedRun};
ghost use Rattle.settle.specs.Stepping.{HoldsJobs, IsFinishedBy, IsSettledBy};

use crate::job_steps::end_job;
use crate::stepping::{Stepped, pick_step, step_at};
use fill_jobs::Hands;
use service_core::Service;
use service_parts::{jobs_that_end_are_out, no_job_is_out_at_rest};

/// Makes the steps that the picks choose until the run is complete. No job is out then.
pub fn play(service: &mut Service, hands: &mut Hands)
    requires jobs { HoldsJobs service.old hands.old }
    requires played { IsPlayed service.old.script service.old.history }
    ensures script { service.new.script ≡ service.old.script }
    ensures played { IsPlayedRun service.new.script service.new.history }
    ensures jobs { HoldsJobs service.new hands.new }
    ensures none { hands.new ≡ [] }
{
    no_job_is_out_at_rest();
    while let Stepped::Done(_) = pick_step(service, hands) {
        service.is_a_run();
    }
    service.is_a_run();
}

/// Makes the first candidate again and again until the run is complete, and answers how many. No job is out then.
pub fn settle(service: &mut Service, hands: &mut Hands) -> u64
    requires { HoldsJobs service.old hands.old }
    ensures settled { IsSettledBy service.old service.new result }
    ensures jobs { HoldsJobs service.new hands.new }
    ensures none { hands.new ≡ [] }
{
    no_job_is_out_at_rest();
    let mut count = 0;
    while let Stepped::Done(_) = step_at(service, hands, 0) {
        service.is_a_run();
        count += 1;
    }
    service.is_a_run();
    count
}

/// Works on the jobs in hand and gives them back. No job is out then.
pub fn finish(service: &mut Service, hands: &mut Hands)
    requires { HoldsJobs service.old hands.old }
    ensures finished { IsFinishedBy service.old service.new }
    ensures jobs { HoldsJobs service.new hands.new }
    ensures none { hands.new ≡ [] }
{
    while let Some(job) = hands.first() {
        end_job(service, hands, job);
        service.is_a_run();
    }
}

/// Ends a service of which no job is out, and the hands.
pub fn close(service: Service, hands: Hands)
    requires jobs { HoldsJobs service hands }
    requires none { hands ≡ [] }
{
    jobs_that_end_are_out();
    service.is_a_run();
    hands.close();
    service.scrap();
}
