//! What a timeline shows of a hal log, as a chart: for each event what is drawn at its place, by what stood before it, and
//! what it breaks of the rules. See `specs/`.
#![tactic(auto)]

mod calls;
mod chart;
mod group;
mod mark;
mod note;
mod piece;
mod rows;
mod walk;

pub use chart::{Judged, chart_of};
