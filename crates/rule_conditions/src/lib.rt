//! What each rule of a legal trace asks of an entry, condition by condition. An entry is allowed exactly where all
//! conditions of its kind hold: `specs/Conditions.antt` states them over the definitions of `trace_model`. Each
//! condition has one sentence, and the rule that it is of.
//!
//! Which condition of its rule an entry doesn't meet is found over all the entries before it: each condition is a plain
//! function, in the words of its definition; `first_failed` gives the first one that fails, and `mentions` the entries
//! of the past that it speaks of.
#![tactic(auto)]

mod about;
mod client;
mod condition;
mod conditions;
mod errors;
mod first;
mod laws;
mod mention;
mod past;
mod results;
mod returns;
mod rule;
mod sends;
mod sentence;
mod shared;
mod standing;
mod targets;

pub use condition::Condition;
pub use conditions::conditions_of;
pub use first::first_failed;
pub use laws::what_is_allowed_meets_its_conditions;
pub use mention::{Mention, mention_of, mentions};
pub use rule::{conditions_are_of_the_rule, rule_of};
pub use sentence::{heading_of, section_of, sentence_of};
