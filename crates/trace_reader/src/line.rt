//! What a line means.

ghost use Rattle.std.specs.Prelude.{◌≡◌, ◌==◌, ◌∷◌, not, length, nat_lt, is_some, IfSome};
ghost use Rattle.std.specs.List.{list_all};
ghost use Rattle.text_parts.specs.Words.{strict_words, strict_words_behind};
ghost use Rattle.trace_reader.specs.Lines.{is_plain_line, kind_of, entry_in, entry_of};
ghost use Rattle.trace_reader.specs.Reader.{Gives};

use crate::call::{begin_of, call_of};
use crate::cause::{Cause, LineRefused};
use crate::frame::{
    buffer_of, drop_of, early_of, error_of, late_of, release_of, send_of, shutter_of, signal_of,
};
use crate::partial::partial_of;
use std::alloc::Global;
use text_parts::{first_strict_word, has_text, next_strict_word};
use trace_model::Entry;

/// Whether a line is ASCII.
fn is_ascii(line: &[u8]) -> bool
    ensures { result ≡ list_all (λ b. nat_lt b 128) line.now }
{
    line.iter().all(|byte| *byte < 128)
}

/// Whether no word behind the first is empty: a single space stands between each two, and none at the line's end.
fn has_single_spaces(behind: &[u8]) -> bool
    ensures { result ≡ list_all (λ word. not (length word == 0)) (strict_words_behind behind.now) }
{
    let mut rest = behind;
    while let Some((word, after)) = next_strict_word(rest) {
        if word.is_empty() {
            return false;
        }
        rest = after;
    }
    true
}

/// The first word of a line and what stands behind it, where the line is ASCII, with single spaces between its words.
pub fn plain_words(line: &[u8]) -> Option<(&[u8], &[u8])>
    ensures plain { is_some result ≡ is_plain_line line.now }
    ensures words { IfSome result (λ cut. strict_words line.now ≡ cut.0.now ∷ strict_words_behind cut.1.now) }
{
    let (word, rest) = first_strict_word(line);
    if is_ascii(line) && !word.is_empty() && has_single_spaces(rest) {
        Some((word, rest))
    } else {
        None
    }
}

/// The kinds of lines, each with its own first word.
#[derive(Clone, Copy)]
pub enum Kind {
    Begin,
    Call,
    Send,
    Drop,
    Shutter,
    Partial,
    Buffer,
    Error,
    Release,
    Signal,
    Early,
    Late,
}

/// The kind of a line, by its first word. The words that a trace has most are asked first.
#[tactic(auto, unfolding(crate::specs::Lines::kind_of))]
fn kind_of(word: &[u8]) -> Option<Kind>
    ensures { result ≡ kind_of word.now }
{
    if has_text(word, "partial") {
        Some(Kind::Partial)
    } else if has_text(word, "buffer") {
        Some(Kind::Buffer)
    } else if has_text(word, "release") {
        Some(Kind::Release)
    } else if has_text(word, "send") {
        Some(Kind::Send)
    } else if has_text(word, "shutter") {
        Some(Kind::Shutter)
    } else if has_text(word, "signal") {
        Some(Kind::Signal)
    } else if has_text(word, "begin") {
        Some(Kind::Begin)
    } else if has_text(word, "call") {
        Some(Kind::Call)
    } else if has_text(word, "filled") {
        Some(Kind::Late)
    } else if has_text(word, "early") {
        Some(Kind::Early)
    } else if has_text(word, "error") {
        Some(Kind::Error)
    } else if has_text(word, "drop") {
        Some(Kind::Drop)
    } else {
        None
    }
}

/// A line's entry, or why there is none.
fn told(entry: Result<Entry, Cause>) -> Result<Entry, LineRefused>
    ensures { Gives result entry }
{
    Ok(entry?)
}

/// An entry, by the kind of its line and the words behind the first.
#[tactic(auto, unfolding(crate::specs::Lines::entry_in))]
fn entry_in(alloc: Global, kind: Kind, rest: &[u8]) -> Result<Entry, LineRefused>
    ensures { Gives result (entry_in kind (strict_words_behind rest.now)) }
{
    match kind {
        Kind::Begin => told(begin_of(rest)),
        Kind::Call => told(call_of(rest)),
        Kind::Send => told(send_of(rest)),
        Kind::Drop => told(drop_of(rest)),
        Kind::Shutter => told(shutter_of(rest)),
        Kind::Partial => partial_of(alloc, rest),
        Kind::Buffer => told(buffer_of(rest)),
        Kind::Error => told(error_of(rest)),
        Kind::Release => told(release_of(rest)),
        Kind::Signal => told(signal_of(rest)),
        Kind::Early => told(early_of(rest)),
        Kind::Late => told(late_of(rest)),
    }
}

/// The entry that a line means.
#[tactic(auto, unfolding(crate::specs::Lines::entry_of))]
pub fn entry_of(alloc: Global, line: &[u8]) -> Result<Entry, LineRefused>
    ensures { Gives result (entry_of line.now) }
{
    let Some((word, rest)) = plain_words(line) else {
        return Err(LineRefused::Bad(Cause::BadLine));
    };
    match kind_of(word) {
        Some(kind) => entry_in(alloc, kind, rest),
        None => Err(LineRefused::Bad(Cause::BadLine)),
    }
}
