//! The sensor's work: an exposure begins, and its job is given back.
ghost use Rattle.run_model.specs.Jobs.{IsJobOut};
ghost use Rattle.service_core.specs.Answers.{Makes, silent};

use crate::service::Service;
use picture_stages::{ExposedJob, SensorJob};
use run_model::StepName;
use trace_model::Entry;

/// What the shutter answers.
pub enum Shuttered {
    /// The exposure began, with this entry; the sensor's job is out.
    Began(Entry, SensorJob),
    /// No exposure may begin; the service is as it was.
    NotBegun,
}

impl Service {
    ghost use Rattle.service_core.specs.Jobs.{AnswersShutter};

    /// Begins the exposure that is due, and gives out the sensor's job.
    pub fn shutter(&mut self) -> Shuttered
        ensures { AnswersShutter self.old result self.new }
    {
        match self.state.shutter() {
            Some((entry, job)) => {
                self.log.push(StepName::Shutter, entry);
                Shuttered::Began(entry, job)
            }
            None => Shuttered::NotBegun,
        }
    }

    /// Takes the readout back from the sensor, whose job is out.
    pub fn sensor_done(&mut self, job: ExposedJob)
        requires { IsJobOut self.old.script self.old.history job }
        ensures { Makes (silent (StepName.SensorDone job.frame)) self.old self.new }
    {
        let frame = job.frame();
        self.state.sensor_done(job);
        self.log.push_silent(StepName::SensorDone(frame));
    }
}
