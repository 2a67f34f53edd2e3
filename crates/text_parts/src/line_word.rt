//! What single words mean.
ghost use Rattle.std.specs.Prelude.{◌≡◌, ◌↔◌, [], IsTrue};
ghost use Rattle.std.specs.List.{list_all};
ghost use Rattle.text_parts.specs.LineReading.{is_printable};
ghost use Rattle.text_parts.specs.Values.{four_numbers, number};
ghost use Rattle.text_parts.specs.LineWords.{one};
ghost use Rattle.text_parts.specs.Words.{loose_words};

use crate::cause::Cause;
use crate::{
    byte_number, next_loose_word, number_below, small_number, small_number_below, split_in_four,
};
use cam_types::Settings;

/// Whether a line has bytes from space to `~` alone.
pub fn is_printable(line: &[u8]) -> bool
    ensures { result ≡ list_all is_printable line.now }
{
    line.iter().all(|byte| *byte >= b' ' && *byte <= b'~')
}

/// Whether no word is left.
pub fn is_end(words: &[u8]) -> bool
    ensures { IsTrue result ↔ (loose_words words.now ≡ []) }
{
    next_loose_word(words).is_none()
}

/// One number of 32 bits, and no more.
pub fn one_number(words: &[u8]) -> Result<u32, Cause>
    ensures { result ≡ one number (loose_words words.now) }
{
    let Some((word, rest)) = next_loose_word(words) else {
        return Err(Cause::Missing);
    };
    let Some(number) = small_number(word) else {
        return Err(Cause::BadNumber);
    };
    if is_end(rest) {
        Ok(number)
    } else {
        Err(Cause::Extra)
    }
}

/// `PATTERN,LEVEL,EXPOSURE,ISO`: numbers of 8, 31, 63 and 31 bits, whether or not a camera takes them.
#[tactic(auto, unfolding(crate::specs::Values::four_numbers))]
pub fn four_numbers(word: &[u8]) -> Option<Settings>
    ensures { result ≡ four_numbers word.now }
{
    let (pattern, level, exposure, iso) = split_in_four(word, b',')?;
    let pattern = byte_number(pattern)?;
    let level = small_number_below(level, 1 << 31)?;
    let exposure = number_below(exposure, 1 << 63)?;
    let iso = small_number_below(iso, 1 << 31)?;
    Some(Settings {
        pattern,
        level,
        exposure,
        iso,
    })
}
