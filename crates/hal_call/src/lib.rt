//! `hal` judges a hal log, `hal-of` writes that of a trace: see `specs/`.
#![tactic(auto)]

mod call;
mod callback;
mod called;
mod event;
mod form;
mod input;
mod laws;
mod log;
mod request;
mod standing;
mod text;
mod text_laws;
mod trace_log_call;

pub use call::hal_call;
pub use form::Form;
pub use laws::fences_of_legal_traces_fit;
pub use log::hal_log;
pub use text::hal_log_text;
pub use text_laws::hal_logs_of_legal_traces_print;
pub use trace_log_call::hal_of_call;
