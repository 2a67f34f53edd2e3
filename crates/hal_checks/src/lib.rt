//! The rules of a camera device's calls and callbacks, judged by an event and the table of what is known before it:
//! those that bind the framework where a call begins, and those that bind the device where one returns and in its
//! callbacks.
#![tactic(auto)]

pub mod back;
pub mod framework;
mod later;
pub mod left;
pub mod meant;
pub mod returns;
pub mod said;
pub mod stream;
