//! `run`: a script is read and run on workers to its end, what they leave is settled on one thread, and the trace is
//! written.
//!
//! `finish_run` ends a camera that is shared and that its root alone still has a seat at. No memory is taken behind
//! `prepare_run`.
#![tactic(auto)]

mod finish;
mod runner;

pub use finish::{finish_run, scrap_shared};
pub use runner::{PreparedRun, prepare_run, run_call, run_prepared};
pub use shared_camera::{Gate, OpenGate};
