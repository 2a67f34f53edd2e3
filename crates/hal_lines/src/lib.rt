//! Lines of hal logs, read: the event that the words of a line mean, or why they mean none.
#![tactic(auto)]

mod call;
mod callback;
mod cause;
mod kind;
mod line;
mod list;
mod value;
mod word;

pub use cause::{Cause, LineRefused};
pub use line::{count_of, event_of};
