//! The first word of a line that isn't of the kind that its place asks for.
ghost use Rattle.std.specs.Prelude.{◌≡◌};
ghost use Rattle.std.specs.Option.{option_map};
ghost use Rattle.text_parts.specs.Words.{loose_words, strict_words_behind};
ghost use Rattle.wrong_words.specs.WordPlaces.{first_wrong, script_kind, trace_kind, word_at, wrong_in_script, wrong_in_trace};

use crate::fit::fits;
use crate::place::{script_kind, trace_kind};
use crate::word_kind::WordKind;
use text_parts::{first_strict_word, next_loose_word, next_strict_word};

/// The first wrong word of those behind the first word of a script's line.
fn among_loose<'l>(first: &[u8], words: &'l [u8]) -> Option<(WordKind, &'l [u8])>
    ensures { option_map (λ wrong. (wrong.0, wrong.1.now)) result
        ≡ first_wrong (script_kind first.now) 1 (loose_words words.now) }
{
    let mut place = 1;
    let mut rest = words;
    while let Some((word, after)) = next_loose_word(rest) {
        let kind = script_kind(first, place);
        if !fits(kind, word) {
            return Some((kind, word));
        }
        place += 1;
        rest = after;
    }
    None
}

/// The first word of a script's line that isn't of the kind that its place asks for, with that kind.
#[tactic(auto, unfolding(crate::specs::WordPlaces::wrong_in_script))]
pub fn wrong_in_script(line: &[u8]) -> Option<(WordKind, &[u8])>
    ensures { option_map (λ wrong. (wrong.0, wrong.1.now)) result ≡ wrong_in_script line.now }
{
    match next_loose_word(line) {
        Some((first, words)) => among_loose(first, words),
        None => None,
    }
}

/// The word at the place, of a text that has a space before each. It is empty where there is none.
fn word_at(rest: &[u8], place: usize) -> &[u8]
    ensures { result.now ≡ word_at place (strict_words_behind rest.now) }
{
    let mut left = place;
    let mut rest = rest;
    while let Some((word, after)) = next_strict_word(rest) {
        if left == 0 {
            return word;
        }
        left -= 1;
        rest = after;
    }
    &[]
}

/// The first wrong word of those behind the first word of a trace's line, each of which has a space before it.
fn among_strict<'l>(first: &[u8], how: &[u8], words: &'l [u8]) -> Option<(WordKind, &'l [u8])>
    ensures { option_map (λ wrong. (wrong.0, wrong.1.now)) result
        ≡ first_wrong (trace_kind first.now how.now) 1 (strict_words_behind words.now) }
{
    let mut place = 1;
    let mut rest = words;
    while let Some((word, after)) = next_strict_word(rest) {
        let kind = trace_kind(first, how, place);
        if !fits(kind, word) {
            return Some((kind, word));
        }
        place += 1;
        rest = after;
    }
    None
}

/// The first word of a trace's line that isn't of the kind that its place asks for, with that kind.
#[tactic(auto, unfolding(crate::specs::WordPlaces::wrong_in_trace))]
pub fn wrong_in_trace(line: &[u8]) -> Option<(WordKind, &[u8])>
    ensures { option_map (λ wrong. (wrong.0, wrong.1.now)) result ≡ wrong_in_trace line.now }
{
    let (first, words) = first_strict_word(line);
    among_strict(first, word_at(words, 3), words)
}
