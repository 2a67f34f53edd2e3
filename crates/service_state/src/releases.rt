//! What the client does with a buffer: it gives it back, and signals the fence that says that it is done with it.
ghost use Rattle.service_state.specs.Answers.{Answers};
ghost use Rattle.service_state.specs.Serving.{IsServing};
ghost use Rattle.run_model.specs.declared.step.StepName.TheVariants.{Release, Signal};

use crate::state::ServiceState;
use cam_types::{BufferId, FenceNo};
use trace_model::Entry;

impl ServiceState {
    /// The client gives a buffer back, with the next fence. None exactly where it hasn't got the buffer, or not its
    /// picture yet.
    pub fn release(&mut self, buffer: BufferId) -> Option<Entry>
        requires { IsServing self.old }
        ensures { Answers (Release buffer) self.old result self.new }
    {
        if !self.buffers.may_release(buffer) {
            return None;
        }
        let (signaller, waiter) = self.fences.make_in();
        let fence = FenceNo(waiter.number());
        self.signals.push(signaller);
        self.buffers.release(buffer, waiter);
        Some(Entry::Release { buffer, fence })
    }

    /// The client signals a fence. None exactly where the fence wasn't released, or is signalled.
    pub fn signal(&mut self, fence: FenceNo) -> Option<Entry>
        requires { IsServing self.old }
        ensures { Answers (Signal fence) self.old result self.new }
    {
        let signaller = self.signals.take(fence.0)?;
        let _number = self.fences.signal(signaller);
        Some(Entry::Signal { fence })
    }
}
