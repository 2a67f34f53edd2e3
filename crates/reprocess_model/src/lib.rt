//! A reprocessing device: it takes pictures that the application has, as input buffers, and makes smaller ones of them.
//! Here are the lines of its runs, the plans that it follows, what a run is, and the laws of every run: see `specs/`.
#![tactic(auto)]

mod entry;
mod laws;
mod plan;
mod reprocess_laws;
mod step;

pub use entry::{InputId, ReEntry, ReOut};
pub use laws::a_yuv_stream_is_offered;
pub use plan::{
    FrameList, PLAN_BYTES, PLAN_COMMANDS, PLAN_FAULTS, PLAN_OUTPUTS, PLAN_PICKS, Plan, ReCommand,
    ReList, are_outputs, is_output, is_yuv,
};
pub use reprocess_laws::{
    a_run_has_eight_lines_for_a_request, an_input_comes_back_once_for_each_take,
    an_output_comes_back_once_for_each_take, an_unfinished_run_has_a_candidate,
    each_request_ends_once, filled_outputs_rise_by_request,
};
pub use step::ReStepName;
