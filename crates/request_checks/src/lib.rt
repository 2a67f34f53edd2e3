//! What a client may configure and ask for: the first refusal of a configuration whose condition holds, or the plan of
//! its streams; the first refusal of the items of a call.
#![tactic(auto)]

mod configure;
mod item;
mod offered;
mod plan;
mod refusal;

pub use configure::check;
pub use item::{item_refusal, items_refusal, list_refusal};
pub use offered::is_offered;
pub use plan::{Plan, PlanStream};
pub use refusal::ConfigRefused;
