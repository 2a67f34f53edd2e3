//! The jobs of a stage: a buffer that is to be filled with the picture of a frame's readout, and the same when it is.
//! And the hands of a player, which hold the jobs of sensor and stages that are out.
#![tactic(auto)]

mod digest;
mod draw;
mod handed_job;
mod hands;
mod job;
mod laws;
mod name;
mod places;

pub use hands::{HANDS_LIMIT, Hands};
pub use job::{FillJob, FilledJob};
pub use laws::{
    a_held_job_is_found, a_job_more_or_less_keeps_frames_apart, a_job_put_in_is_held,
    a_job_taken_out_is_held_no_more, other_frames_stay, the_first_job_is_found_by_its_frame,
    there_is_one_job_more,
};
pub use name::JobName;
