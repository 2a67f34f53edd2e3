//! Stages take buffers, and give them back filled.
ghost use Rattle.std.specs.Prelude.{◌≡◌, IfSome, None, Some, is_some};
ghost use Rattle.run_model.specs.declared.step.StepName.TheVariants.{FillDone, TakeFill};
ghost use Rattle.device_rows.specs.Jobs.{IsFillJobOut};
ghost use Rattle.device_rows.specs.Rows.{row_at};
ghost use Rattle.device_core.specs.Steps.{fill_job_for};
ghost use Rattle.service_state.specs.Answers.{AnswersSilently, Makes, move_with};
ghost use Rattle.service_state.specs.Serving.{IsServing};

use crate::state::ServiceState;
use cam_types::{FrameNo, StreamIx};
use fill_jobs::{FillJob, FilledJob};

impl ServiceState {
    /// Gives a stage the job of filling a frame's buffer for a stream. None exactly where the buffer doesn't wait, it
    /// or its frame fails, the readout isn't home, or the acquire fence isn't signalled.
    pub fn take_fill(&mut self, frame: FrameNo, stream: StreamIx) -> Option<FillJob>
        requires { IsServing self.old }
        ensures step { AnswersSilently (TakeFill frame stream) self.old (is_some result) self.new }
        ensures job { IfSome result (λ job.
            fill_job_for self.old.parts.client.streams stream.0 (row_at frame.0 self.old.parts.rows) ≡ Some job) }
    {
        self.device.take_fill(frame, stream, &mut self.fences)
    }

    /// Takes the buffer and the readout back from a stage, whose job is out.
    pub fn fill_done(&mut self, job: FilledJob)
        requires serving { IsServing self.old }
        requires out { IsFillJobOut self.old.parts.client.streams self.old.parts.rows job }
        ensures { IfSome job.fill
            (λ target. Makes self.old self.new (move_with (FillDone job.frame target.stream) None)) }
    {
        self.device.fill_done(job);
    }
}
