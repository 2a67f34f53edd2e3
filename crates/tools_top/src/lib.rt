//! The second program over any ends: the tool that its words ask for is found and run.
#![tactic(auto)]

mod commands;
mod texts;
mod tool;

pub use call_parts::Status;
pub use commands::{help_call, tools_main};
pub use texts::answer_texts;
pub use tool::{Tool, tool_of};
