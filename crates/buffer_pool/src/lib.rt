//! The buffers of a stream and their fences: a pool holds those that are at home, and lends the one with the least
//! number first; each fence has a token that signals it and one that waits for it; the signallers that a client has
//! still to spend are kept by number.
#![tactic(auto)]

mod blocks;
mod fences;
mod parked;
mod pending;
mod pool;
mod shelf;
mod slots;
mod token;

pub use blocks::Blocks;
pub use fences::Fences;
pub use parked::Parked;
pub use pending::PendingSignals;
pub use pool::{POOL_LIMIT, Pool};
pub use token::{Signaller, Waiter};
