//! A session of random calls on the device behind `camera3_device_t`, with faults and flushes: it writes its hal log. The
//! word is the seed.

mod calls;
mod dice;
mod requests;
mod session;
mod steps;

use crate::failure::NotTried;
use cam_types::{Fault, FaultList, FrameNo, Profile, StreamIx};
use dice::Dice;
use hal_device::HalDevice;
use session::Session;
use std::alloc::{AllocError, Global};

/// Plays a session with the seed.
pub fn try_session(rt: &HostRuntime, words: &[String]) -> Result<bool, NotTried> {
    let [seed] = words else {
        return Err(NotTried::Words);
    };
    let mut dice = Dice::new(seed.as_str().parse().map_err(|_| NotTried::Words)?);
    let faults = some_faults(rt.alloc(), &mut dice)?;
    println!(rt; "hal 1 3\nopen begin")?;
    match HalDevice::open(rt.alloc(), Profile::PLAIN, faults) {
        Ok(mut device) => {
            let mut session = Session::new(dice);
            let played = session.play(rt, &mut device);
            device.close();
            played?;
            println!(rt; "close end")?;
        }
        Err(_) => println!(rt; "open end error ENODEV")?,
    }
    Ok(true)
}

/// Faults of some of the first 200 frames.
fn some_faults(alloc: Global, dice: &mut Dice) -> Result<FaultList, AllocError> {
    let mut faults = FaultList::new(alloc);
    let many = dice.roll(3) > 0;
    for n in 0..200u32 {
        let kind = dice.roll(16);
        let stream = StreamIx(if dice.roll(2) == 0 { 0 } else { 1 });
        let frame = FrameNo(n);
        match kind {
            0 if many => faults.push(Fault::Request(frame))?,
            1 if many => faults.push(Fault::Result(frame))?,
            2 if many => faults.push(Fault::Buffer(frame, stream))?,
            3 if n > 150 => faults.push(Fault::Device(frame))?,
            _ => {}
        }
    }
    Ok(faults)
}
