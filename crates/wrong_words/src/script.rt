//! What is told of a script that isn't read.
ghost use Rattle.std.specs.Prelude.{◌≡◌, ◌++◌, ◌≤◌, IfOk, OnOk, length};
ghost use Rattle.std.specs.Option.{option_map};
ghost use Rattle.wrong_words.specs.Refused.{byte_part, byte_place, byte_value, fault_word_part, form_or, form_part, limit_part, refused_script, script_detail, script_detail_at, script_head, sentence_at, unknown_part};
ghost use Rattle.wrong_words.specs.Sentences.{script_form};
ghost use Rattle.text_parts.specs.Words.{loose_words};

use crate::at::script_line;
use crate::part::{put_head, put_sentence, put_shown_at, put_told, put_word_and_place, put_wrong};
use crate::{
    fault_words, line_words, long_script, put_between, put_number, script_form, script_limits,
    script_sentence, version_lines, wrong_in_script,
};
use cam_types::NoMemory;
use std::alloc::Global;
use text_parts::{Cause, next_loose_word};

/// Writes the place of a byte in the line.
#[tactic(auto, unfolding(crate::specs::Refused::byte_place))]
fn put_byte_place(text: &mut Vec<u8>, alloc: Global, place: u64) -> Result<(), NoMemory>
    ensures { OnOk result (text.new.items ≡ text.old.items ++ byte_place place) }
{
    put_between(text, alloc, b"Byte ", place, b" of the line")
}

/// Writes the value of a byte.
#[tactic(auto, unfolding(crate::specs::Refused::byte_value))]
fn put_byte_value(text: &mut Vec<u8>, alloc: Global, byte: u8) -> Result<(), NoMemory>
    ensures { OnOk result (text.new.items ≡ text.old.items ++ byte_value byte) }
{
    put_between(text, alloc, b" is ", u64::from(byte), b".\n")
}

/// Writes a byte and its place in the line.
fn put_byte(text: &mut Vec<u8>, alloc: Global, place: u64, byte: u8) -> Result<(), NoMemory>
    ensures { OnOk result (text.new.items ≡ text.old.items ++ (byte_place place ++ byte_value byte)) }
{
    put_byte_place(text, alloc, place)?;
    put_byte_value(text, alloc, byte)
}

/// Writes the first byte of a line that isn't from space to `~`.
fn put_byte_part(text: &mut Vec<u8>, alloc: Global, line: &[u8]) -> Result<(), NoMemory>
    ensures { OnOk result (text.new.items ≡ text.old.items ++ byte_part 1 line.now) }
{
    let mut place = 1;
    let mut rest = line;
    while let [byte, after @ ..] = rest {
        if *byte < b' ' || *byte > b'~' {
            return put_byte(text, alloc, place, *byte);
        }
        place += 1;
        rest = after;
    }
    Ok(())
}

/// Writes the word behind `fault`.
fn put_fault_word(text: &mut Vec<u8>, words: &[u8]) -> Result<(), NoMemory>
    ensures { OnOk result (text.new.items ≡ text.old.items ++ fault_word_part (loose_words words.now)) }
{
    match next_loose_word(words) {
        Some((word, _)) => put_word_and_place(text, word, fault_words()),
        None => Ok(()),
    }
}

/// Writes the word of a line that isn't known.
fn put_unknown(text: &mut Vec<u8>, line: &[u8]) -> Result<(), NoMemory>
    ensures { OnOk result (text.new.items ≡ text.old.items ++ unknown_part (loose_words line.now)) }
{
    match next_loose_word(line) {
        Some((b"fault", words)) => put_fault_word(text, words),
        Some((first, _)) => put_word_and_place(text, first, line_words()),
        None => Ok(()),
    }
}

/// How many words a line has.
fn word_count(line: &[u8]) -> u64
    ensures count { result ≡ length (loose_words line.now) }
    ensures short { result ≤ length line.now }
{
    let mut count = 0;
    let mut rest = line;
    while let Some((_, after)) = next_loose_word(rest) {
        count += 1;
        rest = after;
    }
    count
}

/// The form of a script's lines with this first word.
fn form_of(first: &[u8]) -> &[u8]
    ensures { result.now ≡ form_or first.now (script_form first.now) }
{
    match script_form(first) {
        Some(form) => form.as_bytes(),
        None => first,
    }
}

/// Writes how many words a line has, and the form that it should have.
fn put_form(text: &mut Vec<u8>, alloc: Global, line: &[u8]) -> Result<(), NoMemory>
    ensures { OnOk result (text.new.items ≡ text.old.items ++ form_part (loose_words line.now)) }
{
    let Some((first, _)) = next_loose_word(line) else {
        return Ok(());
    };
    text.extend_from_slice(b"Its words: ")?;
    put_number(text, alloc, word_count(line))?;
    text.extend_from_slice(b"\n")?;
    put_told(text, b"Its form: ", form_of(first))
}

/// Writes the limits that a line may pass.
fn put_limits(text: &mut Vec<u8>, line: &[u8]) -> Result<(), NoMemory>
    ensures { OnOk result (text.new.items ≡ text.old.items ++ limit_part (loose_words line.now)) }
{
    match next_loose_word(line) {
        Some((first, _)) => put_told(text, b"The limits: ", script_limits(first).as_bytes()),
        None => Ok(()),
    }
}

/// Writes what is told of a line besides the sentence of its cause.
#[tactic(auto, unfolding(crate::specs::Refused::script_detail))]
fn put_detail(text: &mut Vec<u8>, alloc: Global, cause: Cause, line: &[u8]) -> Result<(), NoMemory>
    ensures { OnOk result (text.new.items ≡ text.old.items ++ script_detail cause line.now) }
{
    match cause {
        Cause::NotAscii => put_byte_part(text, alloc, line),
        Cause::Version => put_told(text, b"There may stand: ", version_lines().as_bytes()),
        Cause::UnknownWord => put_unknown(text, line),
        Cause::BadNumber => put_wrong(text, wrong_in_script(line)),
        Cause::Missing | Cause::Extra => put_form(text, alloc, line),
        Cause::Limit => put_limits(text, line),
        Cause::FaultAfterCommand => Ok(()),
    }
}

/// Writes that of a line, where there is one.
fn put_detail_at(
    text: &mut Vec<u8>,
    alloc: Global,
    cause: Cause,
    line: Option<&[u8]>,
) -> Result<(), NoMemory>
    ensures { OnOk result (text.new.items ≡ text.old.items
        ++ script_detail_at cause (option_map (λ line. line.now) line.entry)) }
{
    match line {
        Some(line) => put_detail(text, alloc, cause, line),
        None => Ok(()),
    }
}

/// The sentence of a cause of a line; that of line 0 is the length of the whole.
#[tactic(auto, unfolding(crate::specs::Refused::sentence_at))]
fn sentence_at(number: u32, cause: Cause) -> &'static str
    ensures { result.now ≡ sentence_at number cause }
{
    if number == 0 {
        long_script()
    } else {
        script_sentence(cause)
    }
}

/// Writes the first line.
#[tactic(auto, unfolding(crate::specs::Refused::script_head))]
fn put_script_head(
    text: &mut Vec<u8>,
    alloc: Global,
    number: u32,
    cause: Cause,
) -> Result<(), NoMemory>
    ensures { OnOk result (text.new.items ≡ text.old.items ++ script_head number cause) }
{
    put_head(text, alloc, b"refused: script", number, cause.number())
}

/// What is told of a script that isn't read: the line and the number of the cause, that line, the sentence of the
/// cause, and what it is of.
#[tactic(auto, unfolding(crate::specs::Refused::refused_script))]
pub fn refused_script(
    alloc: Global,
    part: &[u8],
    number: u32,
    cause: Cause,
) -> Result<Vec<u8>, NoMemory>
    ensures { IfOk result (λ text. text.items ≡ refused_script part.now number cause) }
{
    let line = script_line(part, number);
    let mut text = Vec::new(alloc);
    put_script_head(&mut text, alloc, number, cause)?;
    put_shown_at(&mut text, line)?;
    put_sentence(&mut text, sentence_at(number, cause))?;
    put_detail_at(&mut text, alloc, cause, line)?;
    Ok(text)
}
