//! The partial results of a frame.
ghost use Rattle.run_model.specs.declared.step.StepName.TheVariants.{Partial};
ghost use Rattle.service_state.specs.Answers.{Answers};
ghost use Rattle.service_state.specs.Serving.{IsServing};

use crate::end_frame::Ending;
use crate::state::ServiceState;
use cam_types::FrameNo;
use trace_model::Entry;

impl ServiceState {
    #[tactic(auto, using(crate::proofs::Outs::finish_place))]
    /// The next partial result of a frame. None exactly where the frame isn't exposed, its metadata has ended, or it
    /// has to wait for that of earlier frames or fails.
    pub fn partial(&mut self, frame: FrameNo) -> Option<Entry>
        requires { IsServing self.old }
        ensures { Answers (Partial frame) self.old result self.new }
    {
        let ending = Ending::of(&self.device, &self.captures, frame);
        let (number, part) = self.device.partial(frame)?;
        let entry = Entry::Partial {
            frame,
            number,
            part,
        };
        ending.note_entry(&mut self.client, &mut self.device, &self.script, &entry);
        Some(entry)
    }
}
