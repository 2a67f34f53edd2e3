//! What the parts of a service hold after each history, and how each move carries them on.
//!
//! A service keeps the client's calls, the queue, the buffers with the client's pictures, the device's rows, the
//! settings that were sent last and the time of the next shutter. After a history each part is what the definitions say
//! of it (`parts`). Two laws make a machine of them: which step is ready and which move it makes is read from the parts
//! (`move_by`), and after each move of a run they are what the move makes of the parts before it (`parts_after`). A
//! third reads from them whether the run is complete (`is_over`), a fourth the pictures that the client has
//! (`picture_in`). So a service whose parts these are does what the run allows, and needs nothing of its past.
#![tactic(auto)]

mod job_laws;
mod laws;
mod service_laws;

pub use job_laws::{
    a_frame_has_one_job, a_move_gives_a_job_back, a_move_takes_a_job_out, few_jobs_are_out,
    jobs_that_end_are_out, no_job_is_out_at_first, no_job_is_out_at_rest,
    other_moves_leave_the_jobs, some_job_is_taken,
};
pub use laws::{
    each_move_changes_the_parts, each_step_is_read_from_the_parts,
    the_clients_pictures_are_read_from_the_parts, the_end_is_read_from_the_parts,
};
pub use service_laws::{
    calls_can_be_taken, configurations_come_at_rest, fences_are_given, targets_are_placed,
    there_is_room,
};
