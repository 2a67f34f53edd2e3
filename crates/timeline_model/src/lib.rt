//! What a timeline shows, as plain data: a chart, whatever was read, and what fills it of a trace: for each entry its
//! place, what it ends, and what stands after it. See `specs/`.
#![tactic(auto)]

mod chart;
mod drawn;
mod line;
mod look;
mod past;
mod seat;
mod series;
mod timeline;
mod trace_chart;
mod trace_line;
mod walk;

pub use chart::{Chart, Group, Kind, Lane, Piece};
pub use drawn::{Drawn, Timeline};
pub use line::front_of;
pub use look::{HalCall, Look};
pub use past::Target;
pub use seat::{Seat, keep_other, seat_of, take_seat};
pub use series::Series;
pub use timeline::timeline_of;
pub use trace_chart::chart_of;
