//! Hexadecimal text in its one spelling: two digits for each byte, in lower case.

ghost use Rattle.std.specs.Prelude.{◌≡◌, MatchResult, Ok};
ghost use Rattle.std.specs.List.{list_all};
ghost use Rattle.trace_reader.specs.Values.{is_lower_digit, hex_bytes, digest};
ghost use Rattle.trace_reader.specs.Reader.{Refuses};

use crate::cause::{Cause, LineRefused};
use hex::{FromHex, FromHexError};
use std::alloc::Global;

/// Whether a word has digits in lower case alone.
fn is_lower(word: &[u8]) -> bool
    ensures { result ≡ list_all is_lower_digit word.now }
{
    word.iter().all(|byte| (*byte >= b'0' && *byte <= b'9') || (*byte >= b'a' && *byte <= b'f'))
}

/// The bytes of a text.
pub fn hex_bytes(alloc: Global, word: &[u8]) -> Result<Vec<u8>, LineRefused>
    ensures { MatchResult result (λ bytes. hex_bytes word.now ≡ Ok bytes.items)
        (λ why. Refuses why (hex_bytes word.now)) }
{
    if !is_lower(word) {
        return Err(LineRefused::Bad(Cause::BadNumber));
    }
    match hex::decode(alloc, word) {
        Ok(bytes) => Ok(bytes),
        Err(FromHexError::OutOfMemory) => Err(LineRefused::NoMemory),
        Err(_) => Err(LineRefused::Bad(Cause::BadNumber)),
    }
}

/// The 32 bytes of a digest.
#[tactic(auto, unfolding(crate::specs::Values::digest), using(crate::proofs::Digests::sized))]
pub fn digest(word: &[u8]) -> Result<[u8; 32], Cause>
    ensures { result ≡ digest word.now }
{
    if word.len() != 64 || !is_lower(word) {
        return Err(Cause::BadNumber);
    }
    match <[u8; 32] as FromHex>::from_hex(word) {
        Ok(digest) => Ok(digest),
        Err(_) => Err(Cause::BadNumber),
    }
}
