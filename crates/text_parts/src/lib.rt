//! How texts are cut and how numbers are spelled: what scripts, traces, the words of the command line and all further
//! formats stand on. A text is cut at a byte, into lines, and a line into words; a number has one spelling, decimal
//! digits without sign and leading zeros. With the causes for which a line isn't read, the words of commands, and the
//! forms of the command line.
//!
//! There are two kinds of words. Loose words have any number of spaces between them and at the line's ends, as in a
//! script. Strict words have single spaces between them, as in a trace: there a word may be empty, which no format
//! allows.
#![tactic(auto)]

mod cause;
mod command;
mod cut;
mod form;
mod line;
mod line_word;
mod number;
mod picks;
mod word;

pub use cause::{Cause, LineRefused, TextRefused, refused};
pub use command::{command_word, word_of, word_text};
pub use cut::{split_at_byte, split_in_four, split_in_two};
pub use form::{Form, form_of};
pub use line::{split_line, without_return};
pub use line_word::{four_numbers, is_end, is_printable, one_number};
pub use number::{
    byte_number, is_number, large_number, number_below, number_up_to, number_within, small_number,
    small_number_below,
};
pub use picks::with_picks;
pub use word::{
    first_strict_word, has_text, next_loose_word, next_strict_word, one_strict_word,
    three_strict_words, two_strict_words,
};
