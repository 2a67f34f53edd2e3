//! A camera that is played on one thread: its candidates, one step at a time, until its run is complete.
//!
//! A player has a service and the jobs that are out, in its hands. `step_at` makes the candidate that a number chooses,
//! `pick_step` the one that the script's next pick chooses; the jobs of sensor and stages are worked on when they are
//! given back. `play` goes on by the picks until the run is complete, `settle` by the first candidates. A run never gets
//! stuck and has a bound, so both end. None of them takes memory.
#![tactic(auto)]

mod job_steps;
mod laws;
mod runs;
mod stepping;
mod steps;

pub use laws::{
    empty_hands_have_all_jobs_where_none_is_out, sends_go_first, the_picks_make_one_run,
};
pub use runs::{close, finish, play, settle};
pub use service_core::Service;
pub use stepping::{Stepped, pick_step, step_at};
