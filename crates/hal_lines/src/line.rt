//! What a line means.

ghost use Rattle.std.specs.Prelude.{◌≡◌, ◌∷◌, IfOk, IsTrue};
ghost use Rattle.text_parts.specs.Words.{loose_words};
ghost use Rattle.hal_model.specs.Fits.{is_count, is_well_made};
ghost use Rattle.hal_lines.specs.Lines.{count_of, event_in, event_of, kind_of};
ghost use Rattle.hal_lines.specs.Reader.{Gives};

use crate::call::{close_of, configure_of, flush_of, init_of, open_of, request_of, template_of};
use crate::callback::{notice_of, result_of, shutter_of};
use crate::cause::{Cause, LineRefused};
use crate::kind::Kind;
use crate::value::count;
use hal_model::HalEvent;
use std::alloc::Global;
use text_parts::{has_text, is_end, next_loose_word};

/// The kind of a line, by its first word.
#[tactic(auto, unfolding(crate::specs::Lines::kind_of))]
fn kind_of(word: &[u8]) -> Option<Kind>
    ensures { result ≡ kind_of word.now }
{
    if has_text(word, "open") {
        Some(Kind::Open)
    } else if has_text(word, "init") {
        Some(Kind::Init)
    } else if has_text(word, "template") {
        Some(Kind::Template)
    } else if has_text(word, "configure") {
        Some(Kind::Configure)
    } else if has_text(word, "request") {
        Some(Kind::Request)
    } else if has_text(word, "shutter") {
        Some(Kind::Shutter)
    } else if has_text(word, "error") {
        Some(Kind::Error)
    } else if has_text(word, "result") {
        Some(Kind::Result)
    } else if has_text(word, "flush") {
        Some(Kind::Flush)
    } else if has_text(word, "close") {
        Some(Kind::Close)
    } else {
        None
    }
}

/// What a line gives that holds no list.
fn plain(read: Result<HalEvent, Cause>) -> Result<HalEvent, LineRefused>
    ensures value { Gives result read }
    ensures valid { IfOk read (λ event. IsTrue (is_well_made event)) →
        IfOk result (λ event. IsTrue (is_well_made event)) }
{
    match read {
        Ok(event) => Ok(event),
        Err(cause) => Err(LineRefused::Bad(cause)),
    }
}

/// An event, by the kind of its line and the words behind the first.
#[tactic(auto, unfolding(crate::specs::Lines::event_in))]
fn event_in(alloc: Global, kind: Kind, words: &[u8]) -> Result<HalEvent, LineRefused>
    ensures value { Gives result (event_in kind (loose_words words.now)) }
    ensures valid { IfOk result (λ event. IsTrue (is_well_made event)) }
{
    match kind {
        Kind::Open => plain(open_of(words)),
        Kind::Init => plain(init_of(words)),
        Kind::Template => plain(template_of(words)),
        Kind::Configure => configure_of(alloc, words),
        Kind::Request => request_of(alloc, words),
        Kind::Shutter => plain(shutter_of(words)),
        Kind::Error => plain(notice_of(words)),
        Kind::Result => result_of(alloc, words),
        Kind::Flush => plain(flush_of(words)),
        Kind::Close => plain(close_of(words)),
    }
}

/// An event, by the first word of its line and the words behind it.
#[tactic(auto, unfolding(crate::specs::Lines::event_of))]
pub fn event_of(alloc: Global, word: &[u8], words: &[u8]) -> Result<HalEvent, LineRefused>
    ensures value { Gives result (event_of word.now (loose_words words.now)) }
    ensures valid { IfOk result (λ event. IsTrue (is_well_made event)) }
{
    match kind_of(word) {
        Some(kind) => event_in(alloc, kind, words),
        None => Err(LineRefused::Bad(Cause::BadLine)),
    }
}

/// The number of a line that is `hal 1 K`.
#[tactic(auto, unfolding(crate::specs::Lines::count_of))]
pub fn count_of(word: &[u8], words: &[u8]) -> Result<u32, Cause>
    ensures value { result ≡ count_of (word.now ∷ loose_words words.now) }
    ensures valid { IfOk result (λ parts. IsTrue (is_count parts)) }
{
    let Some((version, rest)) = next_loose_word(words) else {
        return Err(Cause::BadLine);
    };
    let Some((number, rest)) = next_loose_word(rest) else {
        return Err(Cause::BadLine);
    };
    if !is_end(rest) {
        return Err(Cause::BadLine);
    }
    if has_text(word, "hal") && has_text(version, "1") {
        count(number)
    } else {
        Err(Cause::BadLine)
    }
}
