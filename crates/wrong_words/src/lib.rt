//! What `explain` finds and shows of lines: the word of a refused line that is wrong, the first one that isn't of the
//! kind that its place asks for; the lines of a script's commands, faults and picks; lines behind their numbers; picks
//! that choose nothing. And what it writes of an input that isn't read, with a sentence for each cause. See `specs/`.
#![tactic(auto)]

mod at;
mod choice;
mod fit;
mod form;
mod kind;
mod kind_words;
mod lines;
mod part;
mod picks;
mod place;
mod place_laws;
mod places;
mod script;
mod script_word;
mod sentence;
mod shown;
mod trace;
mod trace_word;
mod word_kind;
mod word_laws;
mod wrong;

pub use choice::Choice;
pub use form::{script_form, script_limits, trace_form};
pub use kind::LineKind;
pub use kind_words::kind_text;
pub use lines::{
    LINE_LIMIT, MOST_LINES, put_headed, put_last_lines, put_line, put_lines, put_number,
};
pub use picks::{put_between, put_picks_part};
pub use place_laws::a_script_has_its_lines;
pub use places::{command_line, fault_line, pick_line};
pub use script::refused_script;
pub use sentence::{
    fault_words, line_words, long_input, long_script, other_profile, packed_part, script_sentence,
    trace_sentence, trace_words, version_lines,
};
pub use shown::{put_numbered_line, put_shown};
pub use trace::{refused_input, refused_profile, refused_trace};
pub use word_kind::WordKind;
pub use word_laws::a_bad_word_is_found;
pub use wrong::{wrong_in_script, wrong_in_trace};
