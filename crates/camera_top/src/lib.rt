//! The program over any ends: what its words ask for is done.
#![tactic(auto)]

mod commands;
mod texts;

pub use arbiter_call::arbiter_call;
pub use auto_call::auto_call;
pub use call_parts::Status;
pub use commands::{camera_main, help_call};
pub use logical_call::logical_call;
pub use play_calls::{check_call, convert_call, gen_call, play_call};
pub use reprocess_call::reprocess_call;
pub use run_calls::{Gate, OpenGate, finish_run, run_call};
pub use texts::answer_texts;
