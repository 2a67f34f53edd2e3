//! The row of a live request: what it says, and how an event is noted in it. With what one event and one buffer say,
//! and a number for each order in which later requests may overtake earlier ones.
#![tactic(auto)]

pub mod buffer;
mod order;
pub mod row;
mod target;
pub mod word;

pub use order::{Tops, above, raise_found, raise_settled};
pub use target::has_number;
