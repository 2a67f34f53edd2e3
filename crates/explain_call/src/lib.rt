//! `explain` judges a trace beside its script, and says in words what the verdict means: what it writes of an entry
//! that isn't allowed, of a legal trace that isn't complete, and of a complete one. See `specs/`.
#![tactic(auto)]

mod allowed;
mod buffers;
mod call;
mod commands;
mod fences;
mod frames;
mod idle;
mod illegal;
mod incomplete;
mod judged;
mod length;
mod missing;
mod queue;
mod reason;
mod refusals;
mod script;
mod verdict;

pub use call::explain_call;
pub use idle::legal_text;
pub use illegal::illegal_text;
pub use incomplete::incomplete_text;
pub use length::played_length;
