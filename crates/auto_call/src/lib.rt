//! `auto`: scenes are read from their text, an exposure is searched for each by the pictures of its frames, and the
//! frames are played.
#![tactic(auto)]

mod brightness;
mod call;
mod draft;
mod laws;
mod line;
mod output_line;
mod reading;
mod run;
mod script;
mod search;
mod stage;
mod state;
mod text;

pub use brightness::{at_step, measure};
pub use call::auto_call;
pub use laws::{
    a_search_is_right, mean_grows_with_the_exposure, mean_is_the_same_in_each_frame,
    the_least_step_is_the_first_that_is_bright_enough,
};
pub use output_line::{AutoLine, LineList, LinePrinter};
pub use reading::read;
pub use run::{Drawn, draw_up};
pub use search::Ae;
pub use state::AeState;
pub use text::{AutoText, Scene, SceneList};
