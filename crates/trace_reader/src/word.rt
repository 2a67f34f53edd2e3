//! What the words of a line stand for.

ghost use Rattle.std.specs.Prelude.{◌≡◌, ◌<◌};
ghost use Rattle.trace_reader.specs.Values.{both, numbered, fence, item, fenced_buffer, sent, stream_number, buffers, made, mark, part_number};

use crate::cause::Cause;
use crate::number::{byte, small};
use cam_types::{BufferId, FenceNo, Made, StreamIx};
use text_parts::{has_text, is_number, split_at_byte};
use trace_model::Sent;

/// Two values, or the cause that comes first.
pub fn both<A: Drop, B: Drop>(
    first: Result<A, Cause>,
    second: Result<B, Cause>,
) -> Result<(A, B), Cause>
    ensures { result ≡ both first second }
{
    match (first, second) {
        (Ok(first), Ok(second)) => Ok((first, second)),
        (Ok(_), Err(cause)) => Err(cause),
        (Err(cause), Ok(_)) => Err(cause),
        (Err(first), Err(second)) => Err(first.or_before(second)),
    }
}

/// A number behind a letter: `b` of a buffer, `f` of a fence, `d` of one that the device signals, `r` of a request.
pub fn numbered(letter: u8, word: &[u8]) -> Result<u32, Cause>
    ensures { result ≡ numbered letter word.now }
{
    match word {
        [first, number @ ..] if *first == letter => small(number),
        _ => Err(Cause::BadLine),
    }
}

/// A fence, or `-` where there is none.
pub fn fence(word: &[u8]) -> Result<Option<FenceNo>, Cause>
    ensures { result ≡ fence word.now }
{
    if has_text(word, "-") {
        return Ok(None);
    }
    Ok(Some(FenceNo(numbered(b'f', word)?)))
}

/// `rR.I`.
pub fn item(word: &[u8]) -> Result<(u32, u32), Cause>
    ensures { result ≡ item word.now }
{
    match split_at_byte(word, b'.') {
        Some((front, back)) => both(numbered(b'r', front), small(back)),
        None => Err(Cause::BadLine),
    }
}

/// `bB:F`.
fn fenced_buffer(word: &[u8]) -> Result<(u32, Option<FenceNo>), Cause>
    ensures { result ≡ fenced_buffer word.now }
{
    match split_at_byte(word, b':') {
        Some((front, back)) => both(numbered(b'b', front), fence(back)),
        None => Err(Cause::BadLine),
    }
}

/// `S:bB:F`.
#[tactic(auto, unfolding(crate::specs::Values::sent))]
pub fn sent(word: &[u8]) -> Result<Sent, Cause>
    ensures { result ≡ sent word.now }
{
    let Some((front, back)) = split_at_byte(word, b':') else {
        return Err(Cause::BadLine);
    };
    let (stream, (buffer, fence)) = both(byte(front), fenced_buffer(back))?;
    Ok(Sent {
        stream: StreamIx(stream),
        buffer: BufferId(buffer),
        fence,
    })
}

/// The number of a stream, of which there is one spelling.
#[tactic(auto, using(std::proofs::lemmas::Fmt::decimal_digit))]
fn stream_number(stream: u8, word: &[u8]) -> Result<u8, Cause>
    requires { stream < 10 }
    ensures { result ≡ stream_number stream word.now }
{
    if word == [b'0' + stream].as_slice() {
        Ok(stream)
    } else if is_number(word) {
        Err(Cause::BadLine)
    } else {
        Err(Cause::BadNumber)
    }
}

/// `bB+C`.
fn buffers(word: &[u8]) -> Result<(u32, u32), Cause>
    ensures { result ≡ buffers word.now }
{
    match split_at_byte(word, b'+') {
        Some((front, back)) => both(numbered(b'b', front), small(back)),
        None => Err(Cause::BadLine),
    }
}

/// `S:bB+C`, with the number of the stream.
#[tactic(auto, unfolding(crate::specs::Values::made))]
pub fn made(stream: u8, word: &[u8]) -> Result<Made, Cause>
    requires { stream < 10 }
    ensures { result ≡ made stream word.now }
{
    let Some((front, back)) = split_at_byte(word, b':') else {
        return Err(Cause::BadLine);
    };
    let (_, (first, count)) = both(stream_number(stream, front), buffers(back))?;
    Ok(Made {
        first: BufferId(first),
        count,
    })
}

/// The mark of a send: whether the settings are those of the frame before.
pub fn mark(word: &[u8]) -> Result<bool, Cause>
    ensures { result ≡ mark word.now }
{
    if has_text(word, "same") {
        Ok(true)
    } else if has_text(word, "new") {
        Ok(false)
    } else {
        Err(Cause::BadLine)
    }
}

/// The number of a part.
pub fn part_number(word: &[u8]) -> Result<u8, Cause>
    ensures { result ≡ part_number word.now }
{
    if has_text(word, "1") {
        Ok(1)
    } else if has_text(word, "2") {
        Ok(2)
    } else if has_text(word, "3") {
        Ok(3)
    } else {
        Err(Cause::BadNumber)
    }
}
