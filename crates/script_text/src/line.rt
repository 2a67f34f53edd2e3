//! What a line means by its words.

ghost use Rattle.std.specs.Prelude.{◌≡◌};
ghost use Rattle.text_parts.specs.Words.{loose_words};
ghost use Rattle.script_text.specs.Values.{item_of};
ghost use Rattle.text_parts.specs.Values.{number};
ghost use Rattle.text_parts.specs.LineWords.{ends, good, one, limited};
ghost use Rattle.script_text.specs.Lines.{awaited, command_of, device_of, fault_of, frame_and_stream, profile_number, raw_and_yuv, stream};
ghost use Rattle.script_text.specs.Within.{within, item_within};
ghost use Rattle.text_parts.specs.Reader.{Gives};

use crate::item::item_of;
use crate::list::{items_of, specs_of};
use cam_types::{
    BURST_LIMIT, Command, Fault, FrameNo, Item, PROFILE_LIMIT, Profile, REPEAT_LIMIT, StreamIx,
    Word,
};
use std::alloc::Global;
use text_parts::{
    Cause, LineRefused, byte_number, has_text, is_end, next_loose_word, number_within, one_number,
    small_number,
};

/// One byte, and no more.
fn one_byte(words: &[u8]) -> Result<u8, Cause>
    ensures { result ≡ one stream (loose_words words.now) }
{
    let Some((word, rest)) = next_loose_word(words) else {
        return Err(Cause::Missing);
    };
    let Some(number) = byte_number(word) else {
        return Err(Cause::BadNumber);
    };
    if is_end(rest) {
        Ok(number)
    } else {
        Err(Cause::Extra)
    }
}

/// How many frames an `await` waits for, and no more.
fn one_awaited(words: &[u8]) -> Result<u32, Cause>
    ensures { result ≡ one awaited (loose_words words.now) }
{
    let (word, rest) = next_loose_word(words).ok_or(Cause::Missing)?;
    match small_number(word) {
        None | Some(0) => Err(Cause::BadNumber),
        Some(_) if !is_end(rest) => Err(Cause::Extra),
        Some(count) => Ok(count),
    }
}

/// One capture, and no more.
fn one_item(words: &[u8]) -> Result<Item, Cause>
    ensures { result ≡ limited item_within (one item_of (loose_words words.now)) }
{
    let (word, rest) = next_loose_word(words).ok_or(Cause::Missing)?;
    match item_of(word) {
        Err(Cause::BadNumber) => Err(Cause::BadNumber),
        item if is_end(rest) => item,
        _ => Err(Cause::Extra),
    }
}

/// A frame and a stream.
#[tactic(auto, unfolding(crate::specs::Lines::frame_and_stream))]
fn frame_and_stream(words: &[u8]) -> Result<(u32, u8), Cause>
    ensures { result ≡ frame_and_stream (loose_words words.now) }
{
    let Some((word, rest)) = next_loose_word(words) else {
        return Err(Cause::Missing);
    };
    let Some(frame) = small_number(word) else {
        return Err(Cause::BadNumber);
    };
    let stream = one_byte(rest)?;
    Ok((frame, stream))
}

/// A fault, by the words behind `fault`.
#[tactic(auto, unfolding(crate::specs::Lines::fault_of))]
pub fn fault_of(words: &[u8]) -> Result<Fault, Cause>
    ensures { result ≡ fault_of (loose_words words.now) }
{
    let Some((kind, rest)) = next_loose_word(words) else {
        return Err(Cause::Missing);
    };
    if has_text(kind, "request") {
        Ok(Fault::Request(FrameNo(one_number(rest)?)))
    } else if has_text(kind, "result") {
        Ok(Fault::Result(FrameNo(one_number(rest)?)))
    } else if has_text(kind, "buffer") {
        let (frame, stream) = frame_and_stream(rest)?;
        Ok(Fault::Buffer(FrameNo(frame), StreamIx(stream)))
    } else if has_text(kind, "device") {
        Ok(Fault::Device(FrameNo(one_number(rest)?)))
    } else {
        Err(Cause::UnknownWord)
    }
}

/// A number of a profile, which is from 1 to 16.
fn profile_number(word: &[u8]) -> Result<u32, Cause>
    ensures { result ≡ good (profile_number word.now) }
{
    let number = number_within(word, 1, u64::from(PROFILE_LIMIT)).ok_or(Cause::BadNumber)?;
    Ok(number as u32)
}

/// One number of a profile, and no more.
fn one_profile_number(words: &[u8]) -> Result<u32, Cause>
    ensures { result ≡ one profile_number (loose_words words.now) }
{
    let (word, rest) = next_loose_word(words).ok_or(Cause::Missing)?;
    let number = profile_number(word)?;
    if is_end(rest) {
        Ok(number)
    } else {
        Err(Cause::Extra)
    }
}

/// The buffers of the two formats.
#[tactic(auto, unfolding(crate::specs::Lines::raw_and_yuv))]
fn raw_and_yuv(words: &[u8]) -> Result<(u32, u32), Cause>
    ensures { result ≡ raw_and_yuv (loose_words words.now) }
{
    let Some((word, rest)) = next_loose_word(words) else {
        return Err(Cause::Missing);
    };
    let raw = profile_number(word)?;
    let yuv = one_profile_number(rest)?;
    Ok((raw, yuv))
}

/// A profile, by the words behind `device`.
#[tactic(auto, unfolding(crate::specs::Lines::device_of))]
pub fn device_of(words: &[u8]) -> Result<Profile, Cause>
    ensures { result ≡ device_of (loose_words words.now) }
{
    let Some((word, rest)) = next_loose_word(words) else {
        return Err(Cause::Missing);
    };
    let depth = profile_number(word)?;
    let (raw, yuv) = raw_and_yuv(rest)?;
    Ok(Profile { depth, raw, yuv })
}

/// A command that has no further words.
fn alone(command: Command, words: &[u8]) -> Result<Command, LineRefused>
    ensures { Gives result (ends command (loose_words words.now)) }
{
    if is_end(words) {
        Ok(command)
    } else {
        Err(LineRefused::Bad(Cause::Extra))
    }
}

/// A command, by its word and the words behind it.
#[tactic(auto, unfolding(crate::specs::Lines::command_of))]
pub fn command_of(alloc: Global, word: Word, words: &[u8]) -> Result<Command, LineRefused>
    ensures { Gives result (limited within (command_of word (loose_words words.now))) }
{
    match word {
        Word::Configure => Ok(Command::Configure(specs_of(alloc, words)?)),
        Word::Once => Ok(Command::Once(one_item(words)?)),
        Word::Burst => Ok(Command::Burst(items_of(alloc, words, BURST_LIMIT)?)),
        Word::Repeat => Ok(Command::Repeat(items_of(alloc, words, REPEAT_LIMIT)?)),
        Word::Stop => alone(Command::Stop, words),
        Word::Wait => alone(Command::Wait, words),
        Word::Await => Ok(Command::Await(one_awaited(words)?)),
        Word::Flush => alone(Command::Flush, words),
        Word::Close => alone(Command::Close, words),
        Word::Disconnect => alone(Command::Disconnect, words),
    }
}
