//! The device behind `camera3_device_t`, as calls over a state, the hal log of a list of calls, and what that log keeps
//! of the header's rules: see `specs/`.
#![tactic(auto)]

mod error;
mod laws;

pub use error::CallError;
pub use laws::the_device_keeps_its_rules;
