//! The entries of a trace, and what a legal and complete trace is: see `specs/`, of which `laws` tells first
//! consequences.
#![tactic(auto)]

mod entry;
mod laws;
mod list;
mod verdict;

pub use entry::{Entry, Sent};
pub use laws::{
    a_sent_buffer_stays_at_the_device, an_error_request_ends_the_metadata,
    nothing_begins_while_stopping, nothing_is_legal_before_the_first_entry, one_call_is_due,
    one_send_is_due,
};
pub use list::TraceList;
pub use verdict::{MissingPart, RuleName, Verdict};
