//! Runs that can be looked at. `candidates`: a script is read and played, and the candidates before each of its moves
//! are written. `timeline` draws a trace or a hal log. See `specs/`.
#![tactic(auto)]

mod candidates;
mod form;
mod kind;
mod listing;
mod log;
mod names;
mod note;
mod opened;
mod picture;
mod playing;
mod teller;
mod timeline;

pub use candidates::candidates_call;
pub use form::Form;
pub use timeline::timeline_call;
