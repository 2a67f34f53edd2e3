//! A lock whose holder learns the history of what it keeps: the turnstile. And a caller of it, a list of numbers that
//! threads add to.
#![tactic(auto)]

mod kept;
mod plays;
mod seat;
mod share;
mod tally;
mod turns;
mod turnstile;
mod view;

pub use kept::Kept;
pub use seat::{Held, Seat};
pub use share::{add_both, add_by_many};
pub use tally::{NoMemory, Tally};
pub use turns::{add_all, add_turn, lend_turn, return_turn};
pub use turnstile::Turnstile;
