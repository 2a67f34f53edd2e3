//! What the past of a trace says: the definitions of `trace_model` as plain functions over the entries so far. Each
//! takes the entries in the order of the trace, and answers what its definition says of them with the newest first.
#![tactic(auto)]

pub mod call;
pub mod configuration;
pub mod fence;
pub mod frame;
pub mod next;
pub mod open;
pub mod order;
pub mod place;
pub mod queue;
pub mod stopping;
mod wanted;
