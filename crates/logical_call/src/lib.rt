//! Two cameras that run one script side by side, the first with the script's faults and the second without them; and
//! what all legal runs of one script have in common.
//!
//! `Logical` is both cameras. A pick says whose turn it is, and which of that camera's candidates is made. Where a
//! frame has ended in the second of the two, the step answers the pair. `logical`: a script is read and run so, and
//! what both cameras did is written.
#![tactic(auto)]

mod call;
mod camera;
mod copies;
mod laws;
mod lines;
mod logical;
mod logical_laws;
mod pair;
mod pairing;
mod script;
mod text;
mod turn;

pub use call::logical_call;
pub use laws::{
    a_frame_ends_once, complete_runs_have_the_same_frames, each_frame_has_one_pair,
    items_are_the_scripts, numbers_are_given_once, replies_are_the_scripts,
    the_second_has_no_faults,
};
pub use logical::{Logical, LogicalRefused, LogicalStep};
pub use logical_laws::{
    a_joint_run_has_one_pair_for_each_item, a_joint_run_is_a_run_of_both, a_joint_run_is_bounded,
    a_pair_follows_the_second_end,
};
pub use pair::{PairEnd, Paired, Side};
pub use script::is_logical;
