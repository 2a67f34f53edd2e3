//! What is told of a trace that isn't read, and of an input that is too long.
ghost use Rattle.std.specs.Prelude.{◌≡◌, ◌++◌, [], IfOk, MatchOption, OnOk};
ghost use Rattle.std.specs.Option.{option_map};
ghost use Rattle.wrong_words.specs.Refused.{metadata_part, profile_numbers, profile_part, refused_input, refused_profile, refused_trace, trace_detail, trace_detail_at, trace_form_part, word_and_place};
ghost use Rattle.wrong_words.specs.Sentences.{packed_part};
ghost use Rattle.text_parts.specs.Words.{strict_words};

use crate::at::trace_line;
use crate::part::{put_head, put_sentence, put_shown_at, put_told, put_word_and_place, put_wrong};
use crate::{
    long_input, other_profile, packed_part, put_number, trace_form, trace_sentence, trace_words,
    wrong_in_trace,
};
use cam_types::{NoMemory, Profile};
use std::alloc::Global;
use text_parts::{first_strict_word, next_strict_word};
use trace_reader::Cause;

/// The cause of an input with more bytes than a trace may have.
const TOO_LONG: u8 = 45;

/// The cause of a trace whose profile isn't the script's.
const PROFILE_DIFFERS: u8 = 46;

/// Writes the forms that the lines of a trace have whose first word this line has.
fn put_form(text: &mut Vec<u8>, line: &[u8]) -> Result<(), NoMemory>
    ensures { OnOk result (text.new.items ≡ text.old.items ++ trace_form_part (strict_words line.now)) }
{
    let (first, _) = first_strict_word(line);
    match trace_form(first) {
        Some(form) => put_told(text, b"Its form: ", form.as_bytes()),
        None => put_told(text, b"There may stand: ", trace_words().as_bytes()),
    }
}

/// The word of a line at place 3, from 0 on, where there is one.
fn fourth_word(line: &[u8]) -> Option<&[u8]>
    ensures { MatchOption result (metadata_part (strict_words line.now) ≡ [])
        (λ word. metadata_part (strict_words line.now) ≡ word_and_place word.now packed_part) }
{
    let (_, rest) = first_strict_word(line);
    let (_, rest) = next_strict_word(rest)?;
    let (_, rest) = next_strict_word(rest)?;
    let (word, _) = next_strict_word(rest)?;
    Some(word)
}

/// Writes the text of a `partial` line.
fn put_metadata(text: &mut Vec<u8>, line: &[u8]) -> Result<(), NoMemory>
    ensures { OnOk result (text.new.items ≡ text.old.items ++ metadata_part (strict_words line.now)) }
{
    match fourth_word(line) {
        Some(word) => put_word_and_place(text, word, packed_part()),
        None => Ok(()),
    }
}

/// Writes what is told of a line besides the sentence of its cause.
#[tactic(auto, unfolding(crate::specs::Refused::trace_detail))]
fn put_detail(text: &mut Vec<u8>, cause: Cause, line: &[u8]) -> Result<(), NoMemory>
    ensures { OnOk result (text.new.items ≡ text.old.items ++ trace_detail cause line.now) }
{
    match cause {
        Cause::Truncated => Ok(()),
        Cause::BadNumber => put_wrong(text, wrong_in_trace(line)),
        Cause::BadLine => put_form(text, line),
        Cause::BadMetadata => put_metadata(text, line),
    }
}

/// Writes that of a line, where there is one.
fn put_detail_at(text: &mut Vec<u8>, cause: Cause, line: Option<&[u8]>) -> Result<(), NoMemory>
    ensures { OnOk result (text.new.items ≡ text.old.items
        ++ trace_detail_at cause (option_map (λ line. line.now) line.entry)) }
{
    match line {
        Some(line) => put_detail(text, cause, line),
        None => Ok(()),
    }
}

/// What is told of a trace that isn't read, whose first line has a number.
#[tactic(auto, unfolding(crate::specs::Refused::refused_trace))]
pub fn refused_trace(
    alloc: Global,
    text: &[u8],
    first: u32,
    number: u32,
    cause: Cause,
) -> Result<Vec<u8>, NoMemory>
    ensures { IfOk result (λ told. told.items ≡ refused_trace text.now first number cause) }
{
    let line = trace_line(text, first, number);
    let mut told = Vec::new(alloc);
    put_head(&mut told, alloc, b"refused: trace", number, cause.number())?;
    put_shown_at(&mut told, line)?;
    put_sentence(&mut told, trace_sentence(cause))?;
    put_detail_at(&mut told, cause, line)?;
    Ok(told)
}

/// What is told of an input that is too long.
#[tactic(auto, unfolding(crate::specs::Refused::refused_input))]
pub fn refused_input(alloc: Global) -> Result<Vec<u8>, NoMemory>
    ensures { IfOk result (λ told. told.items ≡ refused_input) }
{
    let mut told = Vec::new(alloc);
    put_head(&mut told, alloc, b"refused: trace", 0, TOO_LONG)?;
    put_sentence(&mut told, long_input())?;
    Ok(told)
}

/// The three numbers of a profile.
#[tactic(auto, unfolding(crate::specs::Refused::profile_numbers))]
fn profile_numbers(alloc: Global, profile: Profile) -> Result<Vec<u8>, NoMemory>
    ensures { IfOk result (λ text. text.items ≡ profile_numbers profile) }
{
    let mut text = Vec::new(alloc);
    put_number(&mut text, alloc, u64::from(profile.depth))?;
    text.extend_from_slice(b" ")?;
    put_number(&mut text, alloc, u64::from(profile.raw))?;
    text.extend_from_slice(b" ")?;
    put_number(&mut text, alloc, u64::from(profile.yuv))?;
    Ok(text)
}

/// Writes the profile of the script.
#[tactic(auto, unfolding(crate::specs::Refused::profile_part))]
fn put_profile(text: &mut Vec<u8>, alloc: Global, profile: Profile) -> Result<(), NoMemory>
    ensures { OnOk result (text.new.items ≡ text.old.items ++ profile_part profile) }
{
    let numbers = profile_numbers(alloc, profile)?;
    put_told(text, b"The script's profile: ", numbers.as_slice())
}

/// What is told of a trace, whose first line has the number, beside a script of another profile.
#[tactic(auto, unfolding(crate::specs::Refused::refused_profile))]
pub fn refused_profile(
    alloc: Global,
    text: &[u8],
    first: u32,
    profile: Profile,
) -> Result<Vec<u8>, NoMemory>
    ensures { IfOk result (λ told. told.items ≡ refused_profile text.now first profile) }
{
    let mut told = Vec::new(alloc);
    put_head(&mut told, alloc, b"refused: trace", first, PROFILE_DIFFERS)?;
    put_shown_at(&mut told, trace_line(text, first, first))?;
    put_sentence(&mut told, other_profile())?;
    put_profile(&mut told, alloc, profile)?;
    Ok(told)
}
