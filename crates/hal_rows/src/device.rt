//! What is known of the device and of its calls. `specs/Device.antt` says what stands in each field.

use cam_types::Listing;
use hal_model::{HalStream, StreamMax};

/// A call: whether it is out, and whether the device was initialized and dead at its last begin.
#[derive(Clone, Copy)]
pub struct Call {
    pub out: bool,
    pub initialized: bool,
    pub dead: bool,
}

/// The device. `top`: one above the greatest number of an accepted request; `begun`: how many requests were begun.
#[derive(Drop)]
pub struct Device {
    pub initialized: bool,
    pub init_begun: bool,
    pub closing: bool,
    pub closed: bool,
    pub failed: bool,
    pub dead: bool,
    pub opening: Call,
    pub init: Call,
    pub template: Call,
    pub configure: Call,
    pub flush: Call,
    pub close: Call,
    pub asked: Listing<HalStream>,
    pub configured: bool,
    pub streams: Listing<HalStream>,
    pub most: Listing<StreamMax>,
    pub settings: bool,
    pub top: u64,
    pub begun: u32,
}
