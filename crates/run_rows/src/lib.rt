//! The device's rows are those of the run: what they say is ready is what the run says, and each step of a run makes of
//! them what the device's step does. And a run is never stuck.
//!
//! `rows` of a history are the rows of its open frames, the oldest first. What the device's definitions say of them
//! alone (`device_rows`), the run says of its past and its jobs: which step is ready and which entry it adds, which job
//! is out, and what each move makes of the rows. So a device that keeps these rows does what the run allows, and
//! nothing else. A run of a valid script is complete, or some step is ready.
#![tactic(auto)]

mod ready;
mod rows;
mod steps;
mod stuck_laws;

pub use ready::{
    deliveries_are_read, early_returns_are_read, errors_are_read, failed_returns_are_read,
    fills_are_read, metadata_is_read, shutters_are_read, signals_are_read,
};
pub use rows::{
    fill_jobs_are_read, frames_are_in_order, open_frames_are_counted, places_agree,
    rows_are_as_they_were_sent, sensor_jobs_are_read, sent_rows_are_fresh,
};
pub use steps::each_move_changes_the_rows;
pub use stuck_laws::{a_run_is_never_stuck, jobs_are_of_open_frames};
