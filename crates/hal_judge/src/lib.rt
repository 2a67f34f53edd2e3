//! The judge of hal logs: what each event breaks of the rules of camera3.h, in one pass.
#![tactic(auto)]

mod fault;
mod judge;
mod order;
mod rule;
mod rules;
mod told;

pub use judge::{Report, first_side, judge_next, open_requests, report_of};
pub use rule::breaks;
pub use rules::rules_for;
pub use told::{Place, add_breaches};
