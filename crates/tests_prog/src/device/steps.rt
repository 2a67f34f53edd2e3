//! Steps of some frame, where they are ready.

use super::session::Session;
use cam_types::{FrameNo, StreamIx};
use device_rows::ErrorEntry;
use hal_device::HalDevice;
use std::io;

/// The bytes of a picture of each stream.
const RAW_BYTES: usize = 38_400;

const HALF_BYTES: usize = 7_200;

const QUARTER_BYTES: usize = 1_800;

impl Session {
    /// An exposure, or a step of a frame that stands.
    pub fn step(&mut self, rt: &HostRuntime, device: &mut HalDevice) -> io::Result<()> {
        let kind = self.dice.roll(8);
        if kind == 0 {
            return self.expose(rt, device);
        }
        match device.at(self.dice.roll(6)) {
            Some(row) => self.step_of(rt, device, kind, row.frame),
            None => Ok(()),
        }
    }

    fn expose(&mut self, rt: &HostRuntime, device: &mut HalDevice) -> io::Result<()> {
        let time = self.time;
        match device.expose(time) {
            Some(frame) => {
                self.time = time.saturating_add(33_333_333);
                println!(rt; "shutter {} {time}", frame.0)
            }
            None => Ok(()),
        }
    }

    fn step_of(
        &mut self,
        rt: &HostRuntime,
        device: &mut HalDevice,
        kind: u32,
        frame: FrameNo,
    ) -> io::Result<()> {
        let stream = StreamIx(match self.dice.roll(3) {
            0 => 0,
            1 => 1,
            _ => 2,
        });
        match kind {
            1 | 2 => send_part(rt, device, frame),
            3 => {
                let _ = device.fill(frame, stream);
                Ok(())
            }
            4 | 5 => deliver(rt, device, frame, stream),
            6 => tell_error(rt, device, frame),
            _ => return_failed(rt, device, frame, stream),
        }
    }
}

fn send_part(rt: &HostRuntime, device: &mut HalDevice, frame: FrameNo) -> io::Result<()> {
    match device.send_part(frame) {
        Some((number, _)) => { println!(rt; "result {} partial {number} metadata", frame.0) }
        None => Ok(()),
    }
}

fn deliver(
    rt: &HostRuntime,
    device: &mut HalDevice,
    frame: FrameNo,
    stream: StreamIx,
) -> io::Result<()> {
    let bytes = match stream.0 {
        0 => RAW_BYTES,
        1 => HALF_BYTES,
        _ => QUARTER_BYTES,
    };
    let mut memory = vec![in rt.alloc(); 0u8; bytes]?;
    match device.deliver(frame, stream, memory.as_mut_slice()) {
        Some(done) => {
            println!(rt;
                "result {} partial 0 none {}:b{}:ok:-",
                frame.0, stream.0, done.buffer.0
            )
        }
        None => Ok(()),
    }
}

fn tell_error(rt: &HostRuntime, device: &mut HalDevice, frame: FrameNo) -> io::Result<()> {
    match device.tell_error(frame) {
        Some(ErrorEntry::Request(frame)) => println!(rt; "error {} request", frame.0),
        Some(ErrorEntry::Result(frame)) => println!(rt; "error {} result", frame.0),
        Some(ErrorEntry::Buffer(frame, stream)) => {
            println!(rt; "error {} buffer:{}", frame.0, stream.0)
        }
        Some(ErrorEntry::Device) => println!(rt; "error device"),
        None => Ok(()),
    }
}

fn return_failed(
    rt: &HostRuntime,
    device: &mut HalDevice,
    frame: FrameNo,
    stream: StreamIx,
) -> io::Result<()> {
    match device.return_failed(frame, stream) {
        Some(buffer) => {
            println!(rt;
                "result {} partial 0 none {}:b{}:error:-",
                frame.0, stream.0, buffer.0
            )
        }
        None => Ok(()),
    }
}
