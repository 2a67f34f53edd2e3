//! `play` and `gen`, and the run of a script with all its memory taken before its first move; `check` and `convert` of
//! a trace.
//!
//! `gen` makes a script from a number: a large valid input that anyone can make again. The words of the generator
//! SplitMix64 give one command each, and some of them a fault. See `specs/Generated.antt`.
#![tactic(auto)]

mod command;
mod convert;
mod judge;
mod laws;
mod player;
mod prepared;
mod script;
mod word;

pub use call_parts::Output;
pub use convert::convert_call;
pub use judge::{check_call, judge_input};
pub use laws::{
    first_words_of_a_seed, generated_scripts_are_typed, generated_scripts_are_valid,
    script_of_one_word,
};
pub use player::{gen_call, play_call};
pub use prepared::{Prepared, play_behind, play_prepared, prepare};
pub use script::generate;
