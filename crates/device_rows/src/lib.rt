//! The rows of the device's open frames: what they say is ready, what each step makes of them, and which jobs are out;
//! the table that keeps them, the order of callbacks, and which errors are due and which of them is told next.
#![tactic(auto)]

mod due;
mod entry;
mod fault;
mod flush_laws;
mod mark;
mod next;
mod order_row;
mod parked;
mod ready;
mod table;
mod table_laws;
mod table_row;
mod target;

pub use due::verdict;
pub use entry::ErrorEntry;
pub use fault::{
    faults_of, has_buffer_fault, has_device_fault, has_request_fault, has_result_fault,
};
pub use flush_laws::{a_stop_leaves_nothing_out, no_error_without_a_cause};
pub use mark::Mark;
pub use next::next_error;
pub use order_row::holds_back;
pub use ready::{is_home, is_same_state, is_sensor_out, is_sound, may_expose, may_return_failed};
pub use table::Table;
pub use table_laws::what_is_parked_is_in_reach;
pub use table_row::Row;
pub use target::target_at;
