//! What one entry of a trace, one fault and one command say, and how many entries of a kind there are: the definitions
//! of `trace_model` as plain functions. A count takes the entries in the order of the trace, and answers what its
//! definition says of them with the newest first.
#![tactic(auto)]

pub mod command;
pub mod entry;
pub mod fault;
pub mod number;
pub mod target;
