//! The buffers that the device hasn't: in the pools of their streams, and at the client.
//!
//! A manager owns each buffer of the configuration but those that were sent to the device. For each buffer, by its
//! number, it keeps where it is: at home in its stream's pool, away at the device, or at the client, filled, early with
//! a device fence, or early with its picture there. Its view is the state of a trace's buffers (`state_facts`), and
//! each call is what an entry makes of that state.
#![tactic(auto)]

mod configure;
mod early;
mod home;
mod manager;
mod reading;
mod release;
mod scrap;
mod slot;
mod stream;
mod take;

pub use manager::BufferManager;
pub use take::asks;
