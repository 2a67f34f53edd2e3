//! A flush begins and ends, and the close begins.
ghost use Rattle.std.specs.Prelude.{◌≡◌};
ghost use Rattle.std.specs.Result.{result_err};
ghost use Rattle.hal_device_model.specs.Calls.{end_error, flush_error};
ghost use Rattle.hal_device_model.specs.Log.{BeginClose, BeginFlush, EndFlush, after_call};

use crate::device::HalDevice;
use hal_device_model::CallError;

impl HalDevice {
    /// `flush` begins: all that hasn't come of the requests fails. ENODEV where the device failed or is closed, ENOSYS
    /// where it isn't initialized, EAGAIN where a flush is under way.
    pub fn begin_flush(&mut self) -> Result<(), CallError>
        ensures answer { result_err result ≡ flush_error self.old }
        ensures state { self.new ≡ after_call BeginFlush self.old }
    {
        if self.is_over() {
            return Err(CallError::NoDevice);
        }
        if !self.initialized {
            return Err(CallError::WrongSequence);
        }
        if self.flushing {
            return Err(CallError::Busy);
        }
        self.quiet.stop();
        self.flushing = true;
        Ok(())
    }

    /// `flush` ends, and may return. ENOSYS where none is under way, EAGAIN where a frame is still open.
    pub fn end_flush(&mut self) -> Result<(), CallError>
        ensures answer { result_err result ≡ end_error self.old }
        ensures state { self.new ≡ after_call EndFlush self.old }
    {
        if !self.flushing {
            return Err(CallError::WrongSequence);
        }
        if self.quiet.len() != 0 {
            return Err(CallError::Busy);
        }
        self.flushing = false;
        Ok(())
    }

    /// `close` begins: all that hasn't come of the requests fails, and no further call is taken. It ends by `close`,
    /// once no frame is open.
    pub fn begin_close(&mut self)
        ensures { self.new ≡ after_call BeginClose self.old }
    {
        self.quiet.stop();
        self.closing = true;
    }
}
