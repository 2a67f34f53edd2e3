//! Numbers and names.

ghost use Rattle.std.specs.Prelude.{◌≡◌, ◌+◌, ◌<◌, ◌≤◌, ◌^◌, ◌*◌, IsTrue, IfOk, true, length};
ghost use Rattle.std.specs.List.{list_all};
ghost use Rattle.std.specs.Char.{digit_value};
ghost use Rattle.std.specs.Str.Parse.{digits_value};
ghost use Rattle.hal_model.specs.Fits.{error_fits, is_count, is_error_name, is_letter};
ghost use Rattle.hal_lines.specs.Values.{acquire, both, count, error_of, format_of, hexadecimal, is_hexadecimal, is_hexadecimal_number, known, large, pack_of, release, rotation, settings_of, small, status_of};

use crate::cause::Cause;
use hal_model::{ErrorName, HalError, HalFence, HalFormat, Pack, Status};
use text_parts::{has_text, large_number, number_within, small_number};

/// Two values, or the cause that comes first.
pub fn both<A: Drop, B: Drop>(
    first: Result<A, Cause>,
    second: Result<B, Cause>,
) -> Result<(A, B), Cause>
    ensures { result ≡ both first second }
{
    match (first, second) {
        (Ok(first), Ok(second)) => Ok((first, second)),
        (Ok(_), Err(cause)) => Err(cause),
        (Err(cause), Ok(_)) => Err(cause),
        (Err(first), Err(second)) => Err(first.or_before(second)),
    }
}

/// A number of 32 bits.
pub fn small(word: &[u8]) -> Result<u32, Cause>
    ensures { result ≡ small word.now }
{
    small_number(word).ok_or(Cause::BadNumber)
}

/// A number of 64 bits.
pub fn large(word: &[u8]) -> Result<u64, Cause>
    ensures { result ≡ large word.now }
{
    large_number(word).ok_or(Cause::BadNumber)
}

/// A partial result count.
pub fn count(word: &[u8]) -> Result<u32, Cause>
    ensures value { result ≡ count word.now }
    ensures valid { IfOk result (λ parts. IsTrue (is_count parts)) }
{
    match number_within(word, 1, 16) {
        Some(number) => Ok(number as u32),
        None => Err(Cause::BadNumber),
    }
}

/// The degrees of a rotation, which aren't 0.
pub fn rotation(word: &[u8]) -> Result<u32, Cause>
    ensures { result ≡ rotation word.now }
{
    match number_within(word, 1, 4_294_967_295) {
        Some(number) => Ok(number as u32),
        None => Err(Cause::BadNumber),
    }
}

/// Whether a word is a hexadecimal number of up to eight digits.
fn is_hexadecimal_number(word: &[u8]) -> bool
    ensures { result ≡ is_hexadecimal_number word.now }
{
    match word {
        [] => false,
        [b'0', _, ..] => false,
        _ => word.len() <= 8 && are_hexadecimal(word),
    }
}

/// Whether bytes are digits and letters from `A` to `F`.
fn are_hexadecimal(word: &[u8]) -> bool
    ensures { result ≡ list_all is_hexadecimal word.now }
{
    word.iter().all(|byte| (*byte >= b'0' && *byte <= b'9') || (*byte >= b'A' && *byte <= b'F'))
}

/// A number of 32 bits in hexadecimal digits.
#[tactic(auto, unfolding(crate::specs::Values::hexadecimal))]
pub fn hexadecimal(word: &[u8]) -> Result<u32, Cause>
    ensures { result ≡ hexadecimal word.now }
{
    if !is_hexadecimal_number(word) {
        return Err(Cause::BadNumber);
    }
    let mut value = 0;
    for byte in word {
        value = value * 16 + digit(*byte);
    }
    Ok(value)
}

/// A number, or `?` for one that the framework doesn't know.
pub fn known(word: &[u8]) -> Result<Option<u32>, Cause>
    ensures { result ≡ known word.now }
{
    if has_text(word, "?") {
        return Ok(None);
    }
    Ok(Some(small(word)?))
}

/// The acquire fence of a target, or `-` for none.
pub fn acquire(word: &[u8]) -> Result<Option<u32>, Cause>
    ensures { result ≡ acquire word.now }
{
    if has_text(word, "-") {
        return Ok(None);
    }
    Ok(Some(small(word)?))
}

/// A release fence.
#[tactic(auto, unfolding(crate::specs::Values::release))]
pub fn release(word: &[u8]) -> Result<HalFence, Cause>
    ensures { result ≡ release word.now }
{
    if has_text(word, "-") {
        Ok(HalFence::Absent)
    } else if has_text(word, "?") {
        Ok(HalFence::Foreign)
    } else {
        Ok(HalFence::Number(small(word)?))
    }
}

/// Whether bytes are capital letters and digits.
fn are_letters(word: &[u8]) -> bool
    ensures { result ≡ list_all is_letter word.now }
{
    word.iter().all(|byte| (*byte >= b'0' && *byte <= b'9') || (*byte >= b'A' && *byte <= b'Z'))
}

/// The name of an error.
#[tactic(auto, unfolding(crate::specs::Values::error_of))]
pub fn error_of(word: &[u8]) -> Result<HalError, Cause>
    ensures value { result ≡ error_of word.now }
    ensures valid { IfOk result (λ error. IsTrue (error_fits error)) }
{
    if word.is_empty() || word.len() > 15 || !are_letters(word) {
        return Err(Cause::BadLine);
    }
    if has_text(word, "ENODEV") {
        return Ok(HalError::NoDevice);
    }
    let mut letters = [0; 15];
    letters[..word.len()].copy_from_slice(word);
    Ok(HalError::Other(ErrorName {
        count: word.len() as u8,
        letters,
    }))
}

/// A format.
#[tactic(auto, unfolding(crate::specs::Values::format_of))]
pub fn format_of(word: &[u8]) -> Result<HalFormat, Cause>
    ensures { result ≡ format_of word.now }
{
    if has_text(word, "YUV") {
        Ok(HalFormat::Yuv)
    } else if has_text(word, "IMPL") {
        Ok(HalFormat::Implementation)
    } else if has_text(word, "BLOB") {
        Ok(HalFormat::Blob)
    } else if has_text(word, "RAW16") {
        Ok(HalFormat::Raw16)
    } else if let [b'H', digits @ ..] = word {
        Ok(HalFormat::Number(hexadecimal(digits)?))
    } else {
        Err(Cause::BadLine)
    }
}

/// A status.
#[tactic(auto, unfolding(crate::specs::Values::status_of))]
pub fn status_of(word: &[u8]) -> Result<Status, Cause>
    ensures { result ≡ status_of word.now }
{
    if has_text(word, "ok") {
        Ok(Status::Filled)
    } else if has_text(word, "error") {
        Ok(Status::Failed)
    } else if has_text(word, "?") {
        Ok(Status::Unknown)
    } else {
        Err(Cause::BadLine)
    }
}

/// What metadata a result has.
#[tactic(auto, unfolding(crate::specs::Values::pack_of))]
pub fn pack_of(word: &[u8]) -> Result<Pack, Cause>
    ensures { result ≡ pack_of word.now }
{
    if has_text(word, "metadata") {
        Ok(Pack::Entries)
    } else if has_text(word, "empty") {
        Ok(Pack::Empty)
    } else if has_text(word, "none") {
        Ok(Pack::Absent)
    } else {
        Err(Cause::BadLine)
    }
}

/// Whether the settings of a request are those of the one before.
pub fn settings_of(word: &[u8]) -> Result<bool, Cause>
    ensures { result ≡ settings_of word.now }
{
    if has_text(word, "settings") {
        Ok(false)
    } else if has_text(word, "same") {
        Ok(true)
    } else {
        Err(Cause::BadLine)
    }
}

/// What a hexadecimal digit stands for.
fn digit(byte: u8) -> u32
    requires { IsTrue (is_hexadecimal byte) }
    ensures value { result ≡ digit_value byte }
    ensures below { result < 16 }
{
    if byte <= b'9' {
        u32::from(byte - b'0')
    } else {
        u32::from(byte - b'A') + 10
    }
}
