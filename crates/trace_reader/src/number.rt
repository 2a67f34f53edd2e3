//! Numbers as they are written, each with its range.

ghost use Rattle.std.specs.Prelude.{◌≡◌};
ghost use Rattle.trace_reader.specs.Values.{byte, small, large, profile_number};

use crate::cause::Cause;
use cam_types::PROFILE_LIMIT;
use text_parts::{byte_number, large_number, number_within, small_number};

/// A number of 8 bits.
pub fn byte(word: &[u8]) -> Result<u8, Cause>
    ensures { result ≡ byte word.now }
{
    byte_number(word).ok_or(Cause::BadNumber)
}

/// A number of 32 bits.
pub fn small(word: &[u8]) -> Result<u32, Cause>
    ensures { result ≡ small word.now }
{
    small_number(word).ok_or(Cause::BadNumber)
}

/// A number of 64 bits.
pub fn large(word: &[u8]) -> Result<u64, Cause>
    ensures { result ≡ large word.now }
{
    large_number(word).ok_or(Cause::BadNumber)
}

/// A number of a profile.
pub fn profile_number(word: &[u8]) -> Result<u32, Cause>
    ensures { result ≡ profile_number word.now }
{
    match number_within(word, 1, u64::from(PROFILE_LIMIT)) {
        Some(number) => Ok(number as u32),
        None => Err(Cause::BadNumber),
    }
}
