//! Client scripts as text: what a text means as a script, and `read`, which finds it; the one spelling of each script,
//! and `print`, which writes it. What is printed is read again as the same script.
#![tactic(auto)]

mod draft;
mod item;
mod laws;
mod line;
mod list;
mod printing;
mod reading;
mod spelled_line;
mod spelled_value;
mod spelling;
mod stream;

pub use laws::one_profile_is_plain;
pub use printing::print;
pub use reading::read;
