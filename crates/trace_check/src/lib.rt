//! The judge of a trace: whether it is a complete legal run of a script, and if not, where or what it lacks.
//!
//! `check` looks at each entry once, over the tables of `judge_rows`, which each entry carries on. Each kind of entry
//! has its reading of the state; `is_due` asks the one of the entry's kind, and looks at no entry before it.
//! `check_plain` looks at each entry over all the entries before it, by the rules of `judge_rules`. Both give the one
//! verdict that the definitions give.
#![tactic(auto)]

mod allowed;
mod before;
pub mod buffers;
pub mod client;
mod entry;
pub mod errors;
pub mod exposures;
mod filled;
mod filled_due;
mod judge;
mod laws;
mod missing;
pub mod parts;
mod passing;
mod pictures;
mod rule;
pub mod send;
pub mod targets;

pub use entry::{drop_due, is_due};
pub use judge::{check, check_plain};
pub use laws::a_trace_has_one_verdict;
pub use passing::note_by;
