//! When an entry is due: the rules of a legal run as plain functions over the entries before it; and what a service may
//! do next: whether a send is allowed, when a command is answered, and with which reply. Each function takes the
//! entries so far in the order of the trace, and answers what its definition says of them with the newest first.
#![tactic(auto)]

pub mod acceptance;
pub mod ahead;
pub mod answer;
pub mod buffer;
pub mod call_rule;
pub mod client;
pub mod error;
pub mod filled;
pub mod mark;
pub mod over;
pub mod pool;
pub mod queue;
pub mod queued;
pub mod refusal;
pub mod reply;
pub mod result_metadata;
pub mod room;
pub mod rule;
pub mod same;
pub mod sensor;
pub mod since;
pub mod stream;
pub mod target;
