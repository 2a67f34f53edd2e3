//! The state of a trace as tables that each entry carries on: where its buffers are and which fences are signalled, and
//! the open frames.
//!
//! Of open frames there is a row for each, the oldest first, with what stands of it and of its buffers. A frame's row
//! goes with the entry that closes it.
#![tactic(auto)]

mod captures;
mod clock;
mod fences;
mod homes;
mod made;
mod next;
mod reading;
mod row;
mod table;
mod tables;
mod target;

pub use fences::FenceBook;
pub use homes::{Home, HomeTable};
pub use row::{OpenRow, has_something, is_ended};
pub use table::{RowTable, find_row, pending_row};
pub use tables::JudgeTables;
pub use target::{OpenTarget, is_pending};
