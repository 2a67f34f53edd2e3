//! How a command of the program ends: its status, and the text that is written with it; what the verdict is called; the
//! lines that refuse an input; what is written of a run; the calls that read their whole input, as a script, as a trace
//! or as a text of lines, where the trace begins behind a script, and whether the profiles of the two agree; and what
//! the programs are called with.
#![tactic(auto)]

mod input;
mod line;
mod output;
mod own_script;
mod part;
mod profile;
mod program;
mod reading;
mod refusal;
mod script;
mod status;
mod text;
mod trace;
mod write;

pub use input::{InputWork, answer_input};
pub use line::{refused_script_text, refused_trace_text, verdict_text};
pub use output::{Output, named_profile};
pub use own_script::{for_first_stream, plain_script, small_stream};
pub use part::{Parts, parts_of};
pub use profile::{profile_of, profiles_agree};
pub use program::{as_words, code_of, words_of};
pub use reading::{
    LineText, named_number, number_from_to, one_number_from_to, read_text, two_numbers,
};
pub use refusal::{PROFILE_DIFFERS, TOO_LONG, refuse_script, refuse_trace};
pub use script::{ScriptInput, ScriptWork};
pub use status::{Status, answer, answer_made, status_of};
pub use text::{TextInput, TextWork};
pub use trace::{TraceInput, TraceWork};
pub use write::{write_run, write_trace};
