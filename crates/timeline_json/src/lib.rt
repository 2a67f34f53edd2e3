//! A chart as trace events of Chrome, in JSON. See `specs/`.
#![tactic(auto)]

mod event;
mod events;
mod text;
mod track;
mod whole;

pub use whole::json_text;
