//! Formats and streams as they are written.

ghost use Rattle.std.specs.Prelude.{◌≡◌};
ghost use Rattle.script_text.specs.Values.{numbered_format, format_of, side_of, stream_of, spec_of};

use cam_types::{Format, StreamSpec};
use text_parts::{has_text, small_number, small_number_below, split_in_two};

/// A format that has no name, by its number.
fn numbered_format(word: &[u8]) -> Option<Format>
    ensures { result ≡ numbered_format word.now }
{
    match word {
        [b'x', number @ ..] => match small_number(number)? {
            0x20 | 0x23 => None,
            number => Some(Format::Other(number)),
        },
        _ => None,
    }
}

/// A format.
#[tactic(auto, unfolding(crate::specs::Values::format_of))]
fn format_of(word: &[u8]) -> Option<Format>
    ensures { result ≡ format_of word.now }
{
    if has_text(word, "raw16") {
        Some(Format::Raw16)
    } else if has_text(word, "yuv") {
        Some(Format::Yuv)
    } else {
        numbered_format(word)
    }
}

/// A width or a height.
#[tactic(auto, unfolding(crate::specs::Values::side_of))]
fn side_of(word: &[u8]) -> Option<u32>
    ensures { result ≡ side_of word.now }
{
    match small_number_below(word, 1 << 16)? {
        0 => None,
        side => Some(side),
    }
}

/// `FORMAT:WxH`.
#[tactic(auto, unfolding(crate::specs::Values::stream_of))]
fn stream_of(input: bool, word: &[u8]) -> Option<StreamSpec>
    ensures { result ≡ stream_of input word.now }
{
    let (format, sides) = split_in_two(word, b':')?;
    let format = format_of(format)?;
    let (width, height) = split_in_two(sides, b'x')?;
    let width = side_of(width)?;
    let height = side_of(height)?;
    Some(StreamSpec {
        input,
        format,
        width,
        height,
    })
}

/// A stream, or an input stream behind `in:`.
#[tactic(auto, unfolding(crate::specs::Values::spec_of))]
pub fn spec_of(word: &[u8]) -> Option<StreamSpec>
    ensures { result ≡ spec_of word.now }
{
    match word.strip_prefix(b"in:") {
        Some(stream) => stream_of(true, stream),
        None => stream_of(false, word),
    }
}
