//! The errors that the device tells.
ghost use Rattle.std.specs.Prelude.{◌≡◌};
ghost use Rattle.run_model.specs.declared.step.StepName.TheVariants.{Fail};
ghost use Rattle.run_rows.specs.Entries.{error_entry};
ghost use Rattle.service_state.specs.Answers.{Answers};
ghost use Rattle.service_state.specs.Serving.{IsServing};

use crate::end_frame::Ending;
use crate::state::ServiceState;
use cam_types::FrameNo;
use device_rows::ErrorEntry;
use trace_model::Entry;

impl ServiceState {
    /// Tells the error that is due at a frame. None exactly where none is due.
    pub fn fail(&mut self, frame: FrameNo) -> Option<Entry>
        requires { IsServing self.old }
        ensures { Answers (Fail frame) self.old result self.new }
    {
        let ending = Ending::of(&self.device, &self.captures, frame);
        let error = self.device.fail_next(frame)?;
        let entry = entry_of(error);
        match error {
            ErrorEntry::Device => self.client.note(&self.script, false, false, &entry),
            _ => ending.note_entry(&mut self.client, &mut self.device, &self.script, &entry),
        }
        Some(entry)
    }
}

/// The entry of an error.
fn entry_of(error: ErrorEntry) -> Entry
    ensures { result ≡ error_entry error }
{
    match error {
        ErrorEntry::Request(frame) => Entry::ErrorRequest { frame },
        ErrorEntry::Result(frame) => Entry::ErrorResult { frame },
        ErrorEntry::Buffer(frame, stream) => Entry::ErrorBuffer { frame, stream },
        ErrorEntry::Device => Entry::ErrorDevice,
    }
}
