//! Requests of one to three streams, with and without settings and acquire fences.

use super::session::{Session, name_of};
use cam_types::{FrameNo, Settings};
use hal_device::HalDevice;
use hal_device_model::CallError;
use hal_model::HalTarget;
use std::alloc::{AllocError, Global};
use std::io;

/// A moving ramp.
const RAMP: Settings = Settings {
    pattern: 2,
    level: 0,
    exposure: 10_000_000,
    iso: 100,
};

impl Session {
    /// A request that is answered at once, or left out where it would have to wait.
    pub fn request(&mut self, rt: &HostRuntime, device: &mut HalDevice) -> io::Result<()> {
        let targets = self.targets(rt.alloc())?;
        let settings = if self.dice.roll(3) == 0 {
            Some(RAMP)
        } else {
            None
        };
        let frame = self.frame;
        let answer = device.request(FrameNo(frame), settings, targets.as_slice());
        if answer == Err(CallError::Busy) {
            return Ok(());
        }
        self.frame = frame.saturating_add(1);
        let word = if settings.is_some() {
            "settings"
        } else {
            "same"
        };
        print!(rt; "request {frame} begin {word}")?;
        for target in targets.as_slice() {
            write_target(rt, target)?;
        }
        match answer {
            Ok(()) => println!(rt; "\nrequest {frame} end ok"),
            Err(error) => println!(rt; "\nrequest {frame} end error {}", name_of(error)),
        }
    }

    /// A buffer for some of the three streams.
    fn targets(&mut self, alloc: Global) -> Result<Vec<HalTarget>, AllocError> {
        let mut targets = Vec::new(alloc);
        for stream in 0..3u32 {
            if self.dice.roll(3) > 0 {
                let buffer = self.buffer;
                self.buffer = buffer.saturating_add(1);
                let fence = if self.dice.roll(2) == 0 {
                    None
                } else {
                    Some(buffer)
                };
                targets.push(HalTarget {
                    stream,
                    buffer,
                    fence,
                })?;
            }
        }
        Ok(targets)
    }
}

fn write_target(rt: &HostRuntime, target: &HalTarget) -> io::Result<()> {
    let stream = target.stream;
    let buffer = target.buffer;
    match target.fence {
        Some(fence) => print!(rt; " {stream}:b{buffer}:{fence}"),
        None => print!(rt; " {stream}:b{buffer}:-"),
    }
}
