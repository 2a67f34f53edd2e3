//! Which words are items and streams of a script.
ghost use Rattle.std.specs.Prelude.{◌≡◌, ◌^◌, is_some};
ghost use Rattle.text_parts.specs.Values.{all_of};
ghost use Rattle.script_text.specs.Lines.{awaited};
ghost use Rattle.script_text.specs.Values.{format_of, item_of, numbered_format, settings_of, side_of, spec_of, stream_of, targets_of};
ghost use Rattle.text_parts.specs.Cuts.{parts_at};
ghost use Rattle.text_parts.specs.Numbers.{number_below};
ghost use Rattle.wrong_words.specs.Kinds.{are_sides};

use text_parts::{
    byte_number, four_numbers, small_number, small_number_below, split_at_byte, split_in_two,
};

/// Whether the word is a number from 1 on.
pub fn is_count(word: &[u8]) -> bool
    ensures { result ≡ is_some (awaited word.now) }
{
    match small_number(word) {
        None | Some(0) => false,
        Some(_) => true,
    }
}

/// Whether the word is a template or four numbers.
#[tactic(auto, unfolding(script_text::specs::Values::settings_of))]
fn is_settings(word: &[u8]) -> bool
    ensures { result ≡ is_some (settings_of word.now) }
{
    word == b"preview".as_slice() || word == b"still".as_slice() || four_numbers(word).is_some()
}

/// Whether the word is streams joined by `+`.
fn is_joined(word: &[u8]) -> bool
    ensures { result ≡ is_some (all_of (number_below (2 ^ 8)) (parts_at 43 word.now)) }
{
    let mut rest = word;
    while let Some((stream, after)) = split_at_byte(rest, b'+') {
        if byte_number(stream).is_none() {
            return false;
        }
        rest = after;
    }
    byte_number(rest).is_some()
}

/// Whether the word is `-`, or streams joined by `+`.
#[tactic(auto, unfolding(script_text::specs::Values::targets_of, script_text::specs::Values::joined_targets))]
fn is_targets(word: &[u8]) -> bool
    ensures { result ≡ is_some (targets_of word.now) }
{
    word == b"-".as_slice() || is_joined(word)
}

/// Whether the word is settings and targets.
#[tactic(auto, unfolding(script_text::specs::Values::item_of))]
pub fn is_item(word: &[u8]) -> bool
    ensures { result ≡ is_some (item_of word.now) }
{
    match split_in_two(word, b'@') {
        Some((settings, targets)) => is_settings(settings) && is_targets(targets),
        None => false,
    }
}

/// Whether the word is a format that has no name.
fn is_numbered_format(word: &[u8]) -> bool
    ensures { result ≡ is_some (numbered_format word.now) }
{
    match word {
        [b'x', number @ ..] => match small_number(number) {
            None | Some(0x20 | 0x23) => false,
            Some(_) => true,
        },
        _ => false,
    }
}

/// Whether the word is a format.
#[tactic(auto, unfolding(script_text::specs::Values::format_of))]
fn is_format(word: &[u8]) -> bool
    ensures { result ≡ is_some (format_of word.now) }
{
    word == b"raw16".as_slice() || word == b"yuv".as_slice() || is_numbered_format(word)
}

/// Whether the word is a width or a height.
#[tactic(auto, unfolding(script_text::specs::Values::side_of))]
fn is_side(word: &[u8]) -> bool
    ensures { result ≡ is_some (side_of word.now) }
{
    match small_number_below(word, 1 << 16) {
        None | Some(0) => false,
        Some(_) => true,
    }
}

/// Whether the word is `WxH`.
fn are_sides(word: &[u8]) -> bool
    ensures { result ≡ are_sides word.now }
{
    match split_in_two(word, b'x') {
        Some((width, height)) => is_side(width) && is_side(height),
        None => false,
    }
}

/// Whether the word is `FORMAT:WxH`.
#[tactic(auto, unfolding(script_text::specs::Values::stream_of))]
fn is_stream(input: bool, word: &[u8]) -> bool
    ensures { result ≡ is_some (stream_of input word.now) }
{
    let _input = input;
    match split_in_two(word, b':') {
        Some((format, sides)) => is_format(format) && are_sides(sides),
        None => false,
    }
}

/// Whether the word is a stream, or an input stream behind `in:`.
#[tactic(auto, unfolding(script_text::specs::Values::spec_of))]
pub fn is_spec(word: &[u8]) -> bool
    ensures { result ≡ is_some (spec_of word.now) }
{
    match word.strip_prefix(b"in:") {
        Some(stream) => is_stream(true, stream),
        None => is_stream(false, word),
    }
}
