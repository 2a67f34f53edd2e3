//! Traces as text: the one spelling of the first line, of each entry's line, and of the summary; and a whole trace
//! written to a sink in pieces.
#![tactic(auto)]

mod call;
mod first;
mod frame;
mod printer;
mod summary;
mod word;
mod writer;

pub use printer::Printer;
pub use writer::TraceWriter;
