//! Which words are buffers, fences, items and digests of a trace.
ghost use Rattle.std.specs.Prelude.{◌≡◌};
ghost use Rattle.std.specs.List.{list_all};
ghost use Rattle.wrong_words.specs.Kinds.{is_buffer_with_fence, is_buffers, is_byte, is_bytes, is_digest, is_fence_or_none, is_hex_digit, is_item_name, is_lettered, is_made, is_reply, is_small, is_target};

use text_parts::{byte_number, small_number, split_at_byte};

/// Whether the word is a number of 32 bits.
pub fn is_small(word: &[u8]) -> bool
    ensures { result ≡ is_small word.now }
{
    small_number(word).is_some()
}

/// Whether the word is a number of 8 bits.
pub fn is_byte(word: &[u8]) -> bool
    ensures { result ≡ is_byte word.now }
{
    byte_number(word).is_some()
}

/// Whether the word is the letter and a number.
pub fn is_lettered(word: &[u8], letter: u8) -> bool
    ensures { result ≡ is_lettered letter word.now }
{
    match word {
        [first, number @ ..] => *first == letter && is_small(number),
        [] => false,
    }
}

/// Whether the word is `rR.I`.
pub fn is_item_name(word: &[u8]) -> bool
    ensures { result ≡ is_item_name word.now }
{
    match split_at_byte(word, b'.') {
        Some((request, place)) => is_lettered(request, b'r') && is_small(place),
        None => false,
    }
}

/// Whether the word is `bB+C`.
fn is_buffers(word: &[u8]) -> bool
    ensures { result ≡ is_buffers word.now }
{
    match split_at_byte(word, b'+') {
        Some((first, count)) => is_lettered(first, b'b') && is_small(count),
        None => false,
    }
}

/// Whether the word is `S:bB+C`.
fn is_made(word: &[u8]) -> bool
    ensures { result ≡ is_made word.now }
{
    match split_at_byte(word, b':') {
        Some((stream, buffers)) => is_byte(stream) && is_buffers(buffers),
        None => false,
    }
}

/// Whether the word is `rR` or `S:bB+C`.
pub fn is_reply(word: &[u8]) -> bool
    ensures { result ≡ is_reply word.now }
{
    is_lettered(word, b'r') || is_made(word)
}

/// Whether the word is `fF` or `-`.
pub fn is_fence_or_none(word: &[u8]) -> bool
    ensures { result ≡ is_fence_or_none word.now }
{
    word == b"-".as_slice() || is_lettered(word, b'f')
}

/// Whether the word is `bB:F`.
fn is_buffer_with_fence(word: &[u8]) -> bool
    ensures { result ≡ is_buffer_with_fence word.now }
{
    match split_at_byte(word, b':') {
        Some((buffer, fence)) => is_lettered(buffer, b'b') && is_fence_or_none(fence),
        None => false,
    }
}

/// Whether the word is `S:bB:F`.
pub fn is_target(word: &[u8]) -> bool
    ensures { result ≡ is_target word.now }
{
    match split_at_byte(word, b':') {
        Some((stream, buffer)) => is_byte(stream) && is_buffer_with_fence(buffer),
        None => false,
    }
}

/// Whether the byte is a hexadecimal digit in lower case.
fn is_hex_digit(byte: u8) -> bool
    ensures { result ≡ is_hex_digit byte }
{
    (byte >= b'0' && byte <= b'9') || (byte >= b'a' && byte <= b'f')
}

/// Whether the bytes are all hexadecimal digits.
fn are_hex_digits(word: &[u8]) -> bool
    ensures { result ≡ list_all is_hex_digit word.now }
{
    word.iter().all(|byte| is_hex_digit(*byte))
}

/// Whether the word is bytes of two hexadecimal digits each.
pub fn is_bytes(word: &[u8]) -> bool
    ensures { result ≡ is_bytes word.now }
{
    word.len() % 2 == 0 && are_hex_digits(word)
}

/// Whether the word is the 64 digits of a digest.
pub fn is_digest(word: &[u8]) -> bool
    ensures { result ≡ is_digest word.now }
{
    word.len() == 64 && are_hex_digits(word)
}
