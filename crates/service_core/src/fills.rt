//! The stages' work: a buffer is taken to be filled, and given back filled.
ghost use Rattle.std.specs.Prelude.{◌≡◌, IfSome};
ghost use Rattle.run_model.specs.Jobs.{IsJobOut};
ghost use Rattle.service_core.specs.Answers.{Makes, silent};

use crate::service::Service;
use cam_types::{FrameNo, StreamIx};
use fill_jobs::{FillJob, FilledJob};
use run_model::StepName;

impl Service {
    ghost use Rattle.service_core.specs.Jobs.{AnswersTake};

    /// Gives a stage the job of filling a frame's buffer for a stream.
    pub fn take_fill(&mut self, frame: FrameNo, stream: StreamIx) -> Option<FillJob>
        ensures { AnswersTake frame stream self.old result self.new }
    {
        let job = self.state.take_fill(frame, stream)?;
        self.log.push_silent(StepName::TakeFill(frame, stream));
        Some(job)
    }

    /// Takes the buffer and the readout back from a stage, whose job is out.
    pub fn fill_done(&mut self, job: FilledJob)
        requires { IsJobOut self.old.script self.old.history job }
        ensures { IfSome job.fill
            (λ target. Makes (silent (StepName.FillDone job.frame target.stream)) self.old self.new) }
    {
        let frame = job.frame();
        let stream = job.target().stream;
        self.state.fill_done(job);
        self.log.push_silent(StepName::FillDone(frame, stream));
    }
}
