//! How a line is cut into words, loose ones and strict ones, and whether a word has a text.

ghost use Rattle.std.specs.Prelude.{◌≡◌, ◌<◌, ◌≤◌, [], ◌∷◌, length, bytes_eq, MatchOption, IfSome};
ghost use Rattle.std.specs.Option.{option_map};
ghost use Rattle.text_parts.specs.Words.{loose_words, one_of, strict_words, strict_words_behind, three_of, two_of};

use crate::cut::{place_of, split_at_byte};

/// Whether a word has this text.
pub fn has_text(word: &[u8], text: &str) -> bool
    ensures { result ≡ bytes_eq word.now text.now }
{
    word == text.as_bytes()
}

/// The first loose word of a line, and what stands after it.
pub fn next_loose_word(line: &[u8]) -> Option<(&[u8], &[u8])>
    ensures words { MatchOption result (loose_words line.now ≡ [])
        (λ cut. loose_words line.now ≡ cut.0.now ∷ loose_words cut.1.now) }
    ensures shorter { IfSome result (λ cut. length cut.1.now < length line.now) }
    ensures word { IfSome result (λ cut. 0 < length cut.0.now) }
{
    let mut rest = line;
    while let Some((word, after)) = split_at_byte(rest, b' ') {
        if !word.is_empty() {
            return Some((word, after));
        }
        rest = after;
    }
    if rest.is_empty() {
        None
    } else {
        Some((rest, &[]))
    }
}

/// The first strict word of a line, and the rest of the line from the space on.
pub fn first_strict_word(line: &[u8]) -> (&[u8], &[u8])
    ensures words { strict_words line.now ≡ result.0.now ∷ strict_words_behind result.1.now }
    ensures rest { length result.1.now ≤ length line.now }
{
    line.split_at(place_of(line, b' '))
}

/// The next strict word, where there is one, and the rest of the line from the space on.
pub fn next_strict_word(rest: &[u8]) -> Option<(&[u8], &[u8])>
    ensures words { MatchOption result (strict_words_behind rest.now ≡ [])
        (λ cut. strict_words_behind rest.now ≡ cut.0.now ∷ strict_words_behind cut.1.now) }
    ensures shorter { IfSome result (λ cut. length cut.1.now < length rest.now) }
{
    match rest {
        [] => None,
        [_, text @ ..] => Some(first_strict_word(text)),
    }
}

/// The strict word, where there is just one.
pub fn one_strict_word(rest: &[u8]) -> Option<&[u8]>
    ensures { option_map (λ word. word.now) result ≡ one_of (strict_words_behind rest.now) }
{
    let (word, rest) = next_strict_word(rest)?;
    match next_strict_word(rest) {
        Some(_) => None,
        None => Some(word),
    }
}

/// The strict words, where there are just two.
pub fn two_strict_words(rest: &[u8]) -> Option<(&[u8], &[u8])>
    ensures { option_map (λ words. (words.0.now, words.1.now)) result ≡ two_of (strict_words_behind rest.now) }
{
    let (first, rest) = next_strict_word(rest)?;
    let second = one_strict_word(rest)?;
    Some((first, second))
}

/// The strict words, where there are just three.
pub fn three_strict_words(rest: &[u8]) -> Option<(&[u8], &[u8], &[u8])>
    ensures { option_map (λ words. (words.0.now, words.1.now, words.2.now)) result ≡
        three_of (strict_words_behind rest.now) }
{
    let (first, rest) = next_strict_word(rest)?;
    let (second, third) = two_strict_words(rest)?;
    Some((first, second, third))
}
