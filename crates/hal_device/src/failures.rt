//! The errors that the device tells, and the failed buffers that it gives back.
ghost use Rattle.std.specs.Prelude.{◌≡◌, is_some, IfSome};
ghost use Rattle.hal_device_model.specs.Calls.{error_in, may_return_failed};
ghost use Rattle.hal_device_model.specs.Log.{ReturnFailed, TellError, after_call};
ghost use Rattle.hal_device.specs.Kept.{IsNumberOf};
ghost use Rattle.device_rows.specs.Rows.{target_in};

use crate::device::HalDevice;
use cam_types::{BufferId, FrameNo, StreamIx};
use device_rows::ErrorEntry;

impl HalDevice {
    /// Tells the error that is due at a frame: the device's failure where it shall fail there, else the next of the
    /// frame. None exactly where none is due.
    pub fn tell_error(&mut self, frame: FrameNo) -> Option<ErrorEntry>
        ensures error { result ≡ error_in frame.0 self.old }
        ensures state { self.new ≡ after_call (TellError frame.0) self.old }
    {
        let error = self.quiet.error(frame)?;
        if matches!(error, ErrorEntry::Device) {
            self.failed = true;
        }
        Some(error)
    }

    /// Gives the framework's buffer for a target back in error. None exactly where its error wasn't told, or it is
    /// back. Its release fence is the acquire fence where nobody waited for that.
    pub fn return_failed(&mut self, frame: FrameNo, stream: StreamIx) -> Option<BufferId>
        ensures ready { is_some result ≡ may_return_failed frame.0 stream.0 self.old }
        ensures buffer { IfSome result (λ buffer. IsNumberOf buffer (target_in frame.0 stream.0 self.old.device.rows)) }
        ensures state { self.new ≡ after_call (ReturnFailed frame.0 stream) self.old }
    {
        let (buffer, block) = self.quiet.return_failed(frame, stream)?;
        self.shelves.take_back(stream, block);
        Some(buffer)
    }
}
