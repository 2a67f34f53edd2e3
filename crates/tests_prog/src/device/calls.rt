//! The framework's calls but for requests.

use super::session::{Session, name_of};
use cam_types::{Format, SpecList, StreamSpec};
use hal_device::HalDevice;
use hal_device_model::CallError;
use std::alloc::{AllocError, Global};
use std::io;

impl Session {
    pub fn initialize(&mut self, rt: &HostRuntime, device: &mut HalDevice) -> io::Result<()> {
        let answer = device.initialize();
        println!(rt; "init begin")?;
        match answer {
            Ok(()) => println!(rt; "init end ok"),
            Err(error) => println!(rt; "init end error {}", name_of(error)),
        }
    }

    pub fn configure(&mut self, rt: &HostRuntime, device: &mut HalDevice) -> io::Result<()> {
        let specs = streams(rt.alloc())?;
        let answer = device.configure(rt.alloc(), &specs);
        println!(rt; "configure begin 0:RAW16x160x120 1:YUVx80x60 2:YUVx40x30")?;
        match answer {
            Ok(_) => println!(rt; "configure end ok 0:3 1:4 2:4"),
            Err(error) => println!(rt; "configure end error {}", name_of(error)),
        }
    }

    pub fn begin_flush(&mut self, rt: &HostRuntime, device: &mut HalDevice) -> io::Result<()> {
        match device.begin_flush() {
            Ok(()) => {
                self.flushing = true;
                println!(rt; "flush begin")
            }
            Err(CallError::Busy) => Ok(()),
            Err(error) => println!(rt; "flush begin\nflush end error {}", name_of(error)),
        }
    }

    pub fn end_flush(&mut self, rt: &HostRuntime, device: &mut HalDevice) -> io::Result<()> {
        match device.end_flush() {
            Ok(()) => {
                self.flushing = false;
                println!(rt; "flush end ok")
            }
            Err(_) => Ok(()),
        }
    }
}

/// Three streams: RAW16, and YUV of half and of a quarter of its size.
fn streams(alloc: Global) -> Result<SpecList, AllocError> {
    let mut specs = SpecList::new(alloc);
    specs.push(output(Format::Raw16, 160, 120))?;
    specs.push(output(Format::Yuv, 80, 60))?;
    specs.push(output(Format::Yuv, 40, 30))?;
    Ok(specs)
}

fn output(format: Format, width: u32, height: u32) -> StreamSpec {
    StreamSpec {
        input: false,
        format,
        width,
        height,
    }
}
