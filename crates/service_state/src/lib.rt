//! The parts of a service, and one call for each of its steps.
#![tactic(auto)]

mod client;
mod end_frame;
mod errors;
mod fills;
mod openings;
mod reading;
mod ready;
mod releases;
mod results;
mod returns;
mod sends;
mod sensor;
mod state;

pub use state::ServiceState;
