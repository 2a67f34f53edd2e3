//! The entries that are allowed after those of a legal trace, each as far as the past determines it; and why the list
//! can be believed.
//!
//! They are read from the tables of the trace's state (`judge_rows`), by the readings with which a trace is judged
//! (`trace_check`): so each costs what the open frames and the configuration's buffers cost, however long the trace is.
#![tactic(auto)]

mod after;
mod buffers;
mod entry;
mod fences;
mod frames;
mod laws;
mod list;
mod pictures;
mod releases;
mod sends;
mod service;
mod tables;

pub use after::allowed_after;
pub use entry::{AllowedEntry, known_of};
pub use laws::{what_is_allowed_is_told, what_is_told_is_allowed};
