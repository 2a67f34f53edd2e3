//! The device behind `camera3_device_t`: calls that can be made in any order, and answer what the header wants.
#![tactic(auto)]

mod device;
mod failures;
mod quiet;
mod ready;
mod request;
mod requests;
mod shelf;
mod shelves;
mod steps;
mod stops;
mod streams;
mod templates;

pub use device::HalDevice;
pub use ready::{ReadyRow, ReadyTarget};
pub use steps::Delivered;
