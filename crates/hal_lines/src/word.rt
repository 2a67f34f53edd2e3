//! The words of a line that have fields: streams, targets and buffers that come back.

ghost use Rattle.std.specs.Prelude.{◌≡◌, List, ℕ, Result};
ghost use Rattle.std.specs.Option.{option_map};
ghost use Rattle.text_parts.specs.Cuts.{parts_at};
ghost use Rattle.hal_lines.specs.Values.{acquired_of, behind, buffer_of, direction_by, fences_by, known, max_of, mode_of, returned_of, returned_in, size_by, small, stream_in, stream_of, target_of, turned_by};
ghost use Rattle.hal_lines.specs.declared.cause.Cause.{Cause as ACause};

use crate::cause::Cause;
use crate::value::{acquire, both, format_of, known, release, rotation, small, status_of};
use hal_model::{
    Direction, HalFence, HalFormat, HalStream, HalTarget, Returned, Status, StreamMax,
};
use text_parts::{has_text, split_at_byte, split_in_two};

/// A word of a list.
pub trait Word: Sized + Drop {
    /// What a word means.
    ghost means: { List ℕ → Result Self ACause };

    /// Reads a word.
    fn read(word: &[u8]) -> Result<Self, Cause>
        ensures { result ≡ means word.now };
}

/// `FORMATxWxH`.
fn size_of(word: &[u8]) -> Result<(HalFormat, (u32, u32)), Cause>
    ensures { result ≡ size_by (parts_at 120 word.now) }
{
    let Some((format, sides)) = split_at_byte(word, b'x') else {
        return Err(Cause::BadLine);
    };
    let Some((width, height)) = split_in_two(sides, b'x') else {
        return Err(Cause::BadLine);
    };
    both(format_of(format), both(small(width), small(height)))
}

/// The direction of a stream, by its last field.
fn direction_of(fields: &[u8]) -> Result<Direction, Cause>
    ensures { result ≡ direction_by (parts_at 58 fields.now) }
{
    match split_at_byte(fields, b':') {
        Some(_) => Err(Cause::BadLine),
        None if has_text(fields, "in") => Ok(Direction::Input),
        None if has_text(fields, "bidi") => Ok(Direction::Bidirectional),
        None => Err(Cause::BadLine),
    }
}

/// The rotation and the direction of a stream, by the fields behind its size.
fn turned_of(fields: &[u8]) -> Result<(u32, Direction), Cause>
    ensures { result ≡ turned_by (parts_at 58 fields.now) }
{
    let [b'r', degrees @ ..] = fields else {
        return Ok((0, direction_of(fields)?));
    };
    match split_at_byte(degrees, b':') {
        None => both(rotation(degrees), Ok(Direction::Output)),
        Some((degrees, field)) => both(rotation(degrees), direction_of(field)),
    }
}

/// A stream by its fields: its number, its format and size, its rotation and direction.
fn stream_in(
    fields: Result<(u32, ((HalFormat, (u32, u32)), (u32, Direction))), Cause>,
) -> Result<HalStream, Cause>
    ensures { result ≡ stream_in fields }
{
    let (stream, ((format, (width, height)), (rotation, direction))) = fields?;
    Ok(HalStream {
        stream,
        format,
        width,
        height,
        rotation,
        direction,
    })
}

impl Word for HalStream {
    ghost means = { stream_of };

    fn read(word: &[u8]) -> Result<Self, Cause> {
        let Some((stream, rest)) = split_at_byte(word, b':') else {
            return Err(Cause::BadLine);
        };
        let stream = small(stream);
        match split_at_byte(rest, b':') {
            None => stream_in(both(stream, both(size_of(rest), Ok((0, Direction::Output))))),
            Some((size, fields)) => {
                stream_in(both(stream, both(size_of(size), turned_of(fields))))
            }
        }
    }
}

impl Word for StreamMax {
    ghost means = { max_of };

    fn read(word: &[u8]) -> Result<Self, Cause> {
        let Some((stream, max)) = split_in_two(word, b':') else {
            return Err(Cause::BadLine);
        };
        let (stream, max) = both(small(stream), small(max))?;
        Ok(StreamMax { stream, max })
    }
}

/// The number of a buffer.
fn buffer(word: &[u8]) -> Result<u32, Cause>
    ensures { result ≡ behind 98 small word.now }
{
    match word {
        [b'b', number @ ..] => small(number),
        _ => Err(Cause::BadLine),
    }
}

/// The number of a buffer that the framework may not know.
fn known_buffer(word: &[u8]) -> Result<Option<u32>, Cause>
    ensures { result ≡ behind 98 known word.now }
{
    match word {
        [b'b', number @ ..] => known(number),
        _ => Err(Cause::BadLine),
    }
}

impl Word for HalTarget {
    ghost means = { target_of };

    fn read(word: &[u8]) -> Result<Self, Cause> {
        let Some((stream, rest)) = split_at_byte(word, b':') else {
            return Err(Cause::BadLine);
        };
        let Some((name, fence)) = split_in_two(rest, b':') else {
            return Err(Cause::BadLine);
        };
        let (stream, (buffer, fence)) = both(small(stream), both(buffer(name), acquire(fence)))?;
        Ok(HalTarget {
            stream,
            buffer,
            fence,
        })
    }
}

/// Whether a buffer has an acquire fence, by the last field.
fn acquired_of(word: &[u8]) -> Result<bool, Cause>
    ensures { result ≡ acquired_of word.now }
{
    if has_text(word, "acquire") {
        Ok(true)
    } else {
        Err(Cause::BadLine)
    }
}

/// The release fence of a buffer, and whether it has an acquire fence.
fn fences_of(fields: &[u8]) -> Result<(HalFence, bool), Cause>
    ensures { result ≡ fences_by (parts_at 58 fields.now) }
{
    match split_at_byte(fields, b':') {
        None => both(release(fields), Ok(false)),
        Some((fence, last)) => match split_at_byte(last, b':') {
            None => both(release(fence), acquired_of(last)),
            Some(_) => Err(Cause::BadLine),
        },
    }
}

/// A buffer that comes back, by its fields: its stream, its number, its status and its fences.
fn returned_in(
    fields: Result<(Option<u32>, (Option<u32>, (Status, (HalFence, bool)))), Cause>,
) -> Result<Returned, Cause>
    ensures { result ≡ returned_in fields }
{
    let (stream, (buffer, (status, (release, acquire)))) = fields?;
    Ok(Returned {
        stream,
        buffer,
        status,
        release,
        acquire,
    })
}

impl Word for Returned {
    ghost means = { returned_of };

    fn read(word: &[u8]) -> Result<Self, Cause> {
        let Some((stream, rest)) = split_at_byte(word, b':') else {
            return Err(Cause::BadLine);
        };
        let Some((name, rest)) = split_at_byte(rest, b':') else {
            return Err(Cause::BadLine);
        };
        let Some((status, fields)) = split_at_byte(rest, b':') else {
            return Err(Cause::BadLine);
        };
        returned_in(both(
            known(stream),
            both(
                known_buffer(name),
                both(status_of(status), fences_of(fields)),
            ),
        ))
    }
}

/// The number of a mode, where the word is one.
pub fn mode_of(word: &[u8]) -> Option<&[u8]>
    ensures { option_map (λ number. number.now) result ≡ mode_of word.now }
{
    match split_in_two(word, b':') {
        Some((name, number)) if has_text(name, "mode") => Some(number),
        _ => None,
    }
}

/// The stream of `buffer:S`.
pub fn buffer_of(word: &[u8]) -> Result<Option<u32>, Cause>
    ensures { result ≡ buffer_of word.now }
{
    match split_in_two(word, b':') {
        Some((name, stream)) if has_text(name, "buffer") => known(stream),
        _ => Err(Cause::BadLine),
    }
}
