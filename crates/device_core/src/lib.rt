//! The device's half of each step: its rows, the sensor, the stages and the errors that it tells.
//!
//! A `Store` has the rows of the open frames with all that the device holds for them: the buffers that wait and those
//! that are filled, and the readouts. Each step of the `Device` moves them there.
#![tactic(auto)]

mod buffers;
mod deliver;
mod device;
mod errors;
mod expose;
mod fill;
mod give;
mod hold;
mod marks;
mod order;
mod place;
mod plan;
mod readouts;
mod results;
mod retire;
mod scrap;
mod store;
mod store_expose;
mod store_fill;
mod store_give;
mod store_retire;

pub use buffers::{FilledBuf, Held, WaitingBuf};
pub use device::Device;
pub use plan::spec_at;
pub use readouts::{HomeReadout, Scratch, Slot};
pub use store::Store;
