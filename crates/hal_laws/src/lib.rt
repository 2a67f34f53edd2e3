//! Laws of hal logs: the profile of this repository keeps the header's rules, and what a log that keeps them means. See
//! `specs/`.
#![tactic(auto)]

mod laws;
mod promises;
mod worked;

pub use laws::the_profile_keeps_the_header;
pub use promises::{
    a_buffer_is_in_one_place, what_comes_is_in_order, what_failed_brings_nothing_good,
};
pub use worked::failed_buffers_have_no_order;
