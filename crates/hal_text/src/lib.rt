//! Hal logs read from their text: what a text means as a hal log, and `read`, which finds it. And the report of a log
//! that was judged: the plain one, and what a person reads, with its lines and sentences. See `specs/`.
#![tactic(auto)]

mod begun;
mod breach;
mod clue;
mod laws;
mod log;
mod meant;
mod person;
mod person_refusal;
mod plain;
mod printing;
mod reading;
mod refusal;
mod refused;
mod report_laws;
mod search;
mod sentence;
mod sum;

pub use breach::is_same_heading;
pub use hal_lines::Cause;
pub use laws::{read_is_on_its_line, spelled_is_read};
pub use log::HalLog;
pub use person::person_text;
pub use person_refusal::refused_for_person;
pub use plain::{plain_text, side_text};
pub use printing::print;
pub use reading::{HAL_BYTES, read};
pub use refusal::refused_text;
pub use refused::LogRefused;
pub use report_laws::each_breach_has_its_line;
pub use search::front;
pub use sentence::sentence_of;
