//! A session: which call is made next.

use super::dice::Dice;
use hal_device::HalDevice;
use hal_device_model::CallError;
use std::io;

/// How many calls are made before the close begins, and how many after it at most.
const CALLS: u32 = 5_000;

const LAST_CALLS: u32 = 5_000;

/// What is kept between two calls.
#[derive(Drop)]
pub(crate) struct Session {
    pub dice: Dice,
    /// The number of the next request, and that of its next buffer.
    pub frame: u32,
    pub buffer: u32,
    /// The time of the next shutter, in nanoseconds.
    pub time: u64,
    pub flushing: bool,
}

impl Session {
    pub fn new(dice: Dice) -> Session {
        Session {
            dice,
            frame: 0,
            buffer: 0,
            time: 1_000_000_000,
            flushing: false,
        }
    }

    /// Opens, calls in any order, and closes.
    pub fn play(&mut self, rt: &HostRuntime, device: &mut HalDevice) -> io::Result<()> {
        println!(rt; "open end ok")?;
        if self.dice.roll(20) > 0 {
            self.initialize(rt, device)?;
            self.configure(rt, device)?;
        }
        for _ in 0..CALLS {
            self.call(rt, device)?;
        }
        println!(rt; "close begin")?;
        device.begin_close();
        self.flushing = true;
        for _ in 0..LAST_CALLS {
            if device.at(0).is_none() {
                break;
            }
            self.step(rt, device)?;
        }
        Ok(())
    }

    /// A call of the framework's, or a step.
    fn call(&mut self, rt: &HostRuntime, device: &mut HalDevice) -> io::Result<()> {
        match self.dice.roll(400) {
            0 => self.initialize(rt, device),
            1 => self.configure(rt, device),
            2..=79 => self.request(rt, device),
            80 => self.begin_flush(rt, device),
            81..=119 => self.end_flush(rt, device),
            _ => self.step(rt, device),
        }
    }
}

/// The error's name in C.
pub(crate) fn name_of(error: CallError) -> &'static str {
    match error {
        CallError::InvalidArgument => "EINVAL",
        CallError::NoDevice => "ENODEV",
        CallError::WrongSequence => "ENOSYS",
        CallError::NoMemory => "ENOMEM",
        CallError::Busy => "EAGAIN",
    }
}
