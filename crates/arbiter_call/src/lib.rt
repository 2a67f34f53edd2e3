//! Several clients, several cameras: who has which camera. A client asks for a camera with a priority, gets it where it
//! is free or held with less, and leaves it; each answer, and each session that ends, stands in a log.
//!
//! `arbiter`: what clients ask of cameras is read from its text and answered, each session is played, and the log is
//! written with the sessions' summaries.
#![tactic(auto)]

mod answer;
mod arbiter;
mod call;
mod draft;
mod laws;
mod line;
mod output;
mod reading;
mod script;
mod session;
mod session_log;
mod sessions;
mod text;
mod text_line;
mod text_sink;
mod turns;

pub use answer::{Answer, LogLine, Refusal};
pub use arbiter::{Arbiter, arbitrate};
pub use call::arbiter_call;
pub use laws::every_log_keeps_the_laws;
pub use line::ArbiterLine;
pub use output::{FIRST_LINE, LAST_LINE, line_text};
pub use reading::read;
pub use script::script_behind;
pub use session::{CAMERA_LIMIT, CameraId, ClientId, LINE_LIMIT, LOG_LINES, Session};
pub use text::{ArbiterText, LineList};
pub use turns::answer_turn;
