//! The steps that add an entry and give out no job.
ghost use Rattle.std.specs.Prelude.{◌≡◌, false};
ghost use Rattle.service_parts.specs.Outs.{moves_a_job};
ghost use Rattle.service_core.specs.Answers.{AnswersStep};

use crate::note::note;
use crate::service::Service;
use crate::step::Step;
use cam_types::{BufferId, FenceNo, FrameNo, StreamIx};
use run_model::StepName;

impl Service {
    /// The next item goes to the device as a frame.
    pub fn send(&mut self) -> Step
        ensures { AnswersStep StepName.Send self.old result self.new }
    {
        let entry = self.state.send();
        note(&mut self.log, StepName::Send, entry)
    }

    /// The client gives a buffer back, with the next fence.
    pub fn release(&mut self, buffer: BufferId) -> Step
        ensures { AnswersStep (StepName.Release buffer) self.old result self.new }
    {
        let entry = self.state.release(buffer);
        note(&mut self.log, StepName::Release(buffer), entry)
    }

    /// The client signals a fence.
    pub fn signal(&mut self, fence: FenceNo) -> Step
        ensures { AnswersStep (StepName.Signal fence) self.old result self.new }
    {
        let entry = self.state.signal(fence);
        note(&mut self.log, StepName::Signal(fence), entry)
    }

    /// The client's next command begins, or is answered.
    pub fn client(&mut self) -> Step
        ensures { AnswersStep StepName.Client self.old result self.new }
    {
        let entry = self.state.client();
        note(&mut self.log, StepName::Client, entry)
    }

    /// The first item that waits is dropped, while the service is stopping.
    pub fn drop_queued(&mut self) -> Step
        ensures { AnswersStep StepName.DropQueued self.old result self.new }
    {
        let entry = self.state.drop_queued();
        note(&mut self.log, StepName::DropQueued, entry)
    }

    /// The error that is due at a frame is told.
    pub fn fail(&mut self, frame: FrameNo) -> Step
        ensures { AnswersStep (StepName.Fail frame) self.old result self.new }
    {
        let entry = self.state.fail(frame);
        note(&mut self.log, StepName::Fail(frame), entry)
    }

    /// A buffer comes back in error.
    pub fn return_failed(&mut self, frame: FrameNo, stream: StreamIx) -> Step
        ensures { AnswersStep (StepName.ReturnFailed frame stream) self.old result self.new }
    {
        let entry = self.state.return_failed(frame, stream);
        note(&mut self.log, StepName::ReturnFailed(frame, stream), entry)
    }

    /// The next partial result of a frame is sent.
    pub fn partial(&mut self, frame: FrameNo) -> Step
        ensures { AnswersStep (StepName.Partial frame) self.old result self.new }
    {
        let entry = self.state.partial(frame);
        note(&mut self.log, StepName::Partial(frame), entry)
    }

    /// A filled buffer comes back to the client.
    pub fn deliver(&mut self, frame: FrameNo, stream: StreamIx) -> Step
        ensures { AnswersStep (StepName.Deliver frame stream) self.old result self.new }
    {
        let entry = self.state.deliver(frame, stream);
        note(&mut self.log, StepName::Deliver(frame, stream), entry)
    }

    /// A buffer that a stage fills comes back early, with the next device fence.
    pub fn early(&mut self, frame: FrameNo, stream: StreamIx) -> Step
        ensures { AnswersStep (StepName.Early frame stream) self.old result self.new }
    {
        let entry = self.state.early(frame, stream);
        note(&mut self.log, StepName::Early(frame, stream), entry)
    }

    /// The device fence of a buffer that came back early is signalled.
    pub fn finish(&mut self, frame: FrameNo, stream: StreamIx) -> Step
        ensures { AnswersStep (StepName.Finish frame stream) self.old result self.new }
    {
        let entry = self.state.finish(frame, stream);
        note(&mut self.log, StepName::Finish(frame, stream), entry)
    }

    /// Makes a step that gives out no job and takes none back, where it is ready.
    pub fn make(&mut self, step: StepName) -> Step
        requires { moves_a_job step ≡ false }
        ensures { AnswersStep step self.old result self.new }
    {
        match step {
            StepName::Send => self.send(),
            StepName::Release(buffer) => self.release(buffer),
            StepName::Signal(fence) => self.signal(fence),
            StepName::Client => self.client(),
            StepName::DropQueued => self.drop_queued(),
            StepName::Fail(frame) => self.fail(frame),
            StepName::ReturnFailed(frame, stream) => self.return_failed(frame, stream),
            StepName::Partial(frame) => self.partial(frame),
            StepName::Deliver(frame, stream) => self.deliver(frame, stream),
            StepName::Early(frame, stream) => self.early(frame, stream),
            StepName::Finish(frame, stream) => self.finish(frame, stream),
            StepName::Shutter => unreachable!(),
            StepName::SensorDone(_) => unreachable!(),
            StepName::TakeFill(_, _) => unreachable!(),
            StepName::FillDone(_, _) => unreachable!(),
        }
    }
}
