//! Which steps are ready: each `may_..` tests one kind of step, and changes nothing.
ghost use Rattle.std.specs.Prelude.{◌≡◌, is_some};
ghost use Rattle.run_model.specs.declared.step.StepName.TheVariants.{Client, Deliver, DropQueued, Early, Fail, FillDone, Finish, Partial, Release, ReturnFailed, Send, SensorDone, Shutter, Signal, TakeFill};
ghost use Rattle.service_parts.specs.Moves.{move_by};
ghost use Rattle.service_state.specs.Serving.{IsServing};

use crate::state::ServiceState;
use cam_types::{BufferId, FenceNo, FrameNo, StreamIx};
use run_model::StepName;

impl ServiceState {
    /// Whether a step is ready: whether the call that makes it would answer with its move.
    pub fn is_ready(&self, step: StepName) -> bool
        requires { IsServing self.now }
        ensures { result ≡ is_some (move_by self.now.script self.now.parts step) }
    {
        match step {
            StepName::Send => self.may_send(),
            StepName::Release(buffer) => self.may_release(buffer),
            StepName::Signal(fence) => self.may_signal(fence),
            StepName::Client => self.may_call(),
            StepName::DropQueued => self.may_drop(),
            StepName::Fail(frame) => self.may_fail(frame),
            StepName::ReturnFailed(frame, stream) => self.may_return_failed(frame, stream),
            StepName::Shutter => self.may_expose(),
            StepName::SensorDone(frame) => self.may_end_exposure(frame),
            StepName::Partial(frame) => self.may_send_part(frame),
            StepName::TakeFill(frame, stream) => self.may_take_fill(frame, stream),
            StepName::FillDone(frame, stream) => self.may_end_fill(frame, stream),
            StepName::Deliver(frame, stream) => self.may_deliver(frame, stream),
            StepName::Early(frame, stream) => self.may_come_early(frame, stream),
            StepName::Finish(frame, stream) => self.may_finish(frame, stream),
        }
    }

    fn may_send(&self) -> bool
        ensures { result ≡ is_some (move_by self.now.script self.now.parts Send) }
    {
        match self.captures.peek() {
            Some(next) => self.may_go(next) && self.buffers.has_buffers_for(&next.item),
            None => false,
        }
    }

    fn may_release(&self, buffer: BufferId) -> bool
        ensures { result ≡ is_some (move_by self.now.script self.now.parts (Release buffer)) }
    {
        self.buffers.may_release(buffer)
    }

    fn may_signal(&self, fence: FenceNo) -> bool
        ensures { result ≡ is_some (move_by self.now.script self.now.parts (Signal fence)) }
    {
        self.signals.stands(fence.0)
    }

    fn may_call(&self) -> bool
        requires { IsServing self.now }
        ensures { result ≡ is_some (move_by self.now.script self.now.parts Client) }
    {
        self.client.due(&self.script, self.around()).is_some()
    }

    fn may_drop(&self) -> bool
        ensures { result ≡ is_some (move_by self.now.script self.now.parts DropQueued) }
    {
        self.client.is_stopping() && self.captures.first_waiting().is_some()
    }

    fn may_fail(&self, frame: FrameNo) -> bool
        ensures { result ≡ is_some (move_by self.now.script self.now.parts (Fail frame)) }
    {
        self.device.error_due(frame).is_some()
    }

    fn may_return_failed(&self, frame: FrameNo, stream: StreamIx) -> bool
        ensures { result ≡ is_some (move_by self.now.script self.now.parts (ReturnFailed frame stream)) }
    {
        self.device.may_return_failed(frame, stream)
    }

    fn may_expose(&self) -> bool
        ensures { result ≡ is_some (move_by self.now.script self.now.parts Shutter) }
    {
        self.device.shutter_due().is_some()
    }

    fn may_end_exposure(&self, frame: FrameNo) -> bool
        ensures { result ≡ is_some (move_by self.now.script self.now.parts (SensorDone frame)) }
    {
        self.device.has_sensor_job(frame)
    }

    fn may_send_part(&self, frame: FrameNo) -> bool
        ensures { result ≡ is_some (move_by self.now.script self.now.parts (Partial frame)) }
    {
        self.device.part_due(frame).is_some()
    }

    fn may_take_fill(&self, frame: FrameNo, stream: StreamIx) -> bool
        ensures { result ≡ is_some (move_by self.now.script self.now.parts (TakeFill frame stream)) }
    {
        self.device.may_take_fill(frame, stream, &self.fences)
    }

    fn may_end_fill(&self, frame: FrameNo, stream: StreamIx) -> bool
        ensures { result ≡ is_some (move_by self.now.script self.now.parts (FillDone frame stream)) }
    {
        self.device.has_fill_job(frame, stream) && self.client.stream(stream).is_some()
    }

    fn may_deliver(&self, frame: FrameNo, stream: StreamIx) -> bool
        ensures { result ≡ is_some (move_by self.now.script self.now.parts (Deliver frame stream)) }
    {
        self.device.may_deliver(frame, stream)
    }

    fn may_come_early(&self, frame: FrameNo, stream: StreamIx) -> bool
        ensures { result ≡ is_some (move_by self.now.script self.now.parts (Early frame stream)) }
    {
        self.script.early && self.device.may_come_early(frame, stream)
    }

    fn may_finish(&self, frame: FrameNo, stream: StreamIx) -> bool
        requires { IsServing self.now }
        ensures { result ≡ is_some (move_by self.now.script self.now.parts (Finish frame stream)) }
    {
        self.device.may_finish(frame, stream)
    }
}
