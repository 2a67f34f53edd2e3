//! The camera service: it serves a script step by step, keeps the history of its moves, and tells which steps are
//! ready.
//!
//! A `Service` is opened with all the memory that a run of its script can need. Each call makes one move, or says that
//! its step isn't ready. Two steps give out a job, of the sensor or of a stage, which the caller works on wherever it
//! likes, and gives back. A contract sees the script and the history, and says of each step exactly which move the
//! definitions give it; whatever calls are made, the history is a run of the script (`is_a_run`).
#![tactic(auto)]

mod asking;
mod choice;
mod fills;
mod frames;
mod kinds;
mod laws;
mod looks;
mod note;
mod sensor;
mod service;
mod step;
mod steps;

pub use asking::{candidates, first, is_ready};
pub use choice::{candidate_at, candidate_count, first_ready};
pub use laws::{
    candidates_are_read_from_the_parts, kinds_of_candidates, single_steps_are_ready_or_not,
    unsignalled_fences_may_be_signalled,
};
pub use sensor::Shuttered;
pub use service::Service;
pub use step::Step;
