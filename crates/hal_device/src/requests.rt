//! The device takes requests.
ghost use Rattle.std.specs.Prelude.{◌≡◌, ◌+◌, Some, None, false};
ghost use Rattle.std.specs.Result.{result_err};
ghost use Rattle.hal_device_model.specs.Calls.{has_to_wait, is_early, is_malformed, request_error, requested, requested_with, settings_of};
ghost use Rattle.hal_device_model.specs.Log.{Request, after_call};

use crate::device::HalDevice;
use crate::request::{are_bad_settings, are_bad_targets, fresh_row, placed, settings_of};
use cam_types::{FrameNo, Settings};
use hal_device_model::CallError;
use hal_model::HalTarget;

impl HalDevice {
    /// `process_capture_request`, without settings those of the request before. ENODEV where the device failed or is
    /// closed, ENOSYS where nothing is configured, EINVAL where the frame's number isn't above all accepted ones, no
    /// target is named, or one of a stream that isn't configured, a stream or a buffer twice, or there are no settings
    /// or one is out of its range; EAGAIN where a flush is under way, as many frames are open as may, or a stream has
    /// as many buffers at the device as it may: then it is to be called anew after the next step.
    pub fn request(
        &mut self,
        frame: FrameNo,
        settings: Option<Settings>,
        targets: &[HalTarget],
    ) -> Result<(), CallError>
        ensures answer { result_err result ≡ request_error frame.0 settings targets.now self.old }
        ensures state { self.new ≡ after_call (Request frame.0 settings targets.now) self.old }
    {
        match self.request_error(frame, settings, targets) {
            Some(error) => Err(error),
            None => {
                self.accept(frame, settings, targets);
                Ok(())
            }
        }
    }

    /// Why the request isn't taken.
    fn request_error(
        &self,
        frame: FrameNo,
        settings: Option<Settings>,
        targets: &[HalTarget],
    ) -> Option<CallError>
        ensures { result ≡ request_error frame.0 settings targets.now self.now }
    {
        if self.is_over() {
            return Some(CallError::NoDevice);
        }
        if self.is_early() {
            return Some(CallError::WrongSequence);
        }
        if self.is_malformed(frame, settings, targets) {
            return Some(CallError::InvalidArgument);
        }
        if self.has_to_wait(targets) {
            return Some(CallError::Busy);
        }
        None
    }

    fn is_early(&self) -> bool
        ensures { result ≡ is_early self.now }
    {
        !self.initialized || self.stream_count() == 0
    }

    fn is_malformed(
        &self,
        frame: FrameNo,
        settings: Option<Settings>,
        targets: &[HalTarget],
    ) -> bool
        ensures { result ≡ is_malformed frame.0 settings targets.now self.now }
    {
        (frame.0 as u64) < self.next
            || (are_bad_targets(self.stream_count(), targets)
                || are_bad_settings(settings_of(settings, self.last)))
    }

    fn has_to_wait(&self, targets: &[HalTarget]) -> bool
        ensures { result ≡ has_to_wait targets.now self.now }
    {
        self.flushing
            || (self.quiet.len() == self.profile.depth || self.shelves.lack(placed(targets)))
    }

    /// Takes a request against which nothing stands.
    fn accept(&mut self, frame: FrameNo, settings: Option<Settings>, targets: &[HalTarget])
        requires { request_error frame.0 settings targets.now self.old ≡ None }
        ensures { self.new ≡
            requested_with frame.0 (settings_of settings self.old.last) targets.now self.old }
    {
        match settings_of(settings, self.last) {
            Some(settings) => self.admit(frame, settings, targets),
            None => unreachable!(),
        }
    }

    /// Takes a request that is well formed, and for which there is room.
    fn admit(&mut self, frame: FrameNo, settings: Settings, targets: &[HalTarget])
        requires formed { is_malformed frame.0 (Some settings) targets.now self.old ≡ false }
        requires room { has_to_wait targets.now self.old ≡ false }
        ensures { self.new ≡ requested frame.0 settings targets.now self.old }
    {
        let row = fresh_row(frame, settings, targets);
        let parked = self.shelves.park(self.plan, row.targets);
        self.quiet.request(row, parked);
        self.last = Some(settings);
        self.next = frame.0 as u64 + 1;
    }
}
