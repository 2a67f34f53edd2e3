//! Traces read from their text: what a text means as a trace.
#![tactic(auto)]

mod call;
mod cause;
mod digest;
mod first;
mod frame;
mod laws;
mod line;
mod number;
mod partial;
mod reading;
mod word;

pub use cause::{Cause, TraceRefused};
pub use laws::{read_is_spelled, spelled_is_read};
pub use reading::{TRACE_BYTES, read};
