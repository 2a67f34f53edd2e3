//! The command `reprocess`: a plan is read from its text, played by its picks, and its run is written.
#![tactic(auto)]

mod call;
mod draft;
mod line;
mod player;
mod prepared;
mod reading;
mod run;
mod word;

pub use call::reprocess_call;
pub use line::LinePrinter;
pub use prepared::{Prepared, play_prepared, prepare};
pub use reading::read;
pub use run::RunWriter;
