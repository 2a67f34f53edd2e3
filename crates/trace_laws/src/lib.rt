//! Laws that legal and complete traces keep: how much a trace of a script can hold, so that every number fits its field
//! and every entry has a line; what becomes of frames, items, buffers and fences; what a send may take; what a request
//! error means. Facts of every legal past stand in `proofs/`. See `specs/`.
#![tactic(auto)]

mod buffer_laws;
mod buffer_worked;
mod frame_laws;
mod laws;
mod request_error_laws;
mod send_laws;
mod typed;
mod worked;

pub use buffer_laws::{
    buffers_are_conserved, buffers_are_sent_from_home, buffers_end_once, deliveries_are_in_order,
    fences_are_released_and_signalled_once,
};
pub use buffer_worked::breaches_are_seen;
pub use frame_laws::{
    items_end_once, metadata_ends_in_order, metadata_ends_once, partials_count_up, shutters_rise,
};
pub use laws::{
    bounds_of_a_valid_script_fit, buffers_are_bounded, calls_are_bounded,
    device_fences_are_bounded, every_entry_prints, fences_are_bounded, frames_are_bounded,
    shutter_times_are_bounded,
};
pub use request_error_laws::nothing_good_comes_after_a_request_error;
pub use send_laws::{a_due_send_is_allowed, a_send_is_due_where_one_is_allowed};
pub use typed::{every_script_is_typed, legal_traces_print};
pub use worked::worked_bounds;
