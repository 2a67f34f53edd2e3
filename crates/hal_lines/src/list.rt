//! Lists of words, and the marks that may stand behind them.

ghost use Rattle.std.specs.Prelude.{◌≡◌, ◌<◌, ◌≤◌, ◌++◌, length, IfOk, IsTrue};
ghost use Rattle.text_parts.specs.Words.{loose_words};
ghost use Rattle.hal_model.specs.Fits.{few, part_limit};
ghost use Rattle.hal_lines.specs.Lines.{are_read, before_marks, each, flaws_of, from_marks, input_of, is_mark, list_of, nothing, one_flaw};

use crate::cause::Cause;
use crate::word::Word;
use cam_types::{Listing, NoMemory};
use std::alloc::Global;
use text_parts::{has_text, is_end, next_loose_word};

/// The most words of a list.
const WORD_LIMIT: usize = 16;

/// Whether a word may stand behind those of a list.
fn is_mark(word: &[u8]) -> bool
    ensures { result ≡ is_mark word.now }
{
    has_text(word, "nohandle") || has_text(word, "badsettings") || has_text(word, "input")
}

/// How many words a list has, and what stands from the first mark on.
fn end_of(words: &[u8]) -> (usize, &[u8])
    ensures count { result.0 ≡ length (before_marks (loose_words words.now)) }
    ensures rest { loose_words result.1.now ≡ from_marks (loose_words words.now) }
{
    let mut count = 0;
    let mut rest = words;
    while let Some((word, after)) = next_loose_word(rest) {
        if is_mark(word) {
            break;
        }
        count += 1;
        rest = after;
    }
    (count, rest)
}

/// The first of the causes of words, if one has any. It calls itself once for each word; a list has 16 at most.
fn are_words<T: Word>(words: &[u8]) -> Result<(), Cause>
    ensures { result ≡ are_read (each T.means (before_marks (loose_words words.now))) }
{
    match next_loose_word(words) {
        None => Ok(()),
        Some((word, _)) if is_mark(word) => Ok(()),
        Some((word, rest)) => {
            let more = are_words::<T>(rest);
            match (T::read(word), more) {
                (Ok(_), more) => more,
                (Err(cause), Ok(())) => Err(cause),
                (Err(cause), Err(other)) => Err(cause.or_before(other)),
            }
        }
    }
}

/// The values of the words of a list, which aren't too many.
fn values_of<T: Word>(alloc: Global, words: &[u8]) -> Result<Result<Listing<T>, Cause>, NoMemory>
    requires { length (before_marks (loose_words words.now)) ≤ part_limit }
    ensures value { IfOk result (λ read. read ≡ each T.means (before_marks (loose_words words.now))) }
    ensures few { IfOk result (λ read. IfOk read (λ list. IsTrue (few list))) }
{
    let mut values = Listing::new(alloc);
    let mut rest = words;
    while let Some((word, after)) = next_loose_word(rest) {
        if is_mark(word) {
            break;
        }
        match T::read(word) {
            Ok(value) => values.push(value)?,
            Err(cause) => {
                let cause = match are_words::<T>(after) {
                    Ok(()) => cause,
                    Err(other) => cause.or_before(other),
                };
                return Ok(Err(cause));
            }
        }
        rest = after;
    }
    Ok(Ok(values))
}

/// A list of words, and what stands from the first mark on.
pub fn list_of<T: Word>(
    alloc: Global,
    words: &[u8],
) -> Result<(Result<Listing<T>, Cause>, &[u8]), NoMemory>
    ensures list { IfOk result (λ read. read.0 ≡ list_of T.means (loose_words words.now)) }
    ensures few { IfOk result (λ read. IfOk read.0 (λ list. IsTrue (few list))) }
    ensures rest { IfOk result (λ read. loose_words read.1.now ≡ from_marks (loose_words words.now)) }
{
    let (count, rest) = end_of(words);
    if count > WORD_LIMIT {
        return Ok((Err(Cause::BadLine), rest));
    }
    Ok((values_of(alloc, words)?, rest))
}

/// No marks.
pub fn no_marks(words: &[u8]) -> Result<(), Cause>
    ensures { result ≡ nothing (tt {0}) (loose_words words.now) }
{
    if is_end(words) {
        Ok(())
    } else {
        Err(Cause::BadLine)
    }
}

/// One of the flaws of a request.
fn one_flaw(word: &[u8]) -> Result<(bool, bool), Cause>
    ensures { result ≡ one_flaw word.now }
{
    if has_text(word, "nohandle") {
        Ok((true, false))
    } else if has_text(word, "badsettings") {
        Ok((false, true))
    } else {
        Err(Cause::BadLine)
    }
}

/// What no number shows of a request: that it has no handle, or bad settings.
#[tactic(auto, unfolding(crate::specs::Lines::flaws_of))]
pub fn flaws_of(words: &[u8]) -> Result<(bool, bool), Cause>
    ensures { result ≡ flaws_of (loose_words words.now) }
{
    let Some((first, rest)) = next_loose_word(words) else {
        return Ok((false, false));
    };
    let Some((second, rest)) = next_loose_word(rest) else {
        return one_flaw(first);
    };
    if !is_end(rest) {
        return Err(Cause::BadLine);
    }
    if has_text(first, "nohandle") && has_text(second, "badsettings") {
        Ok((true, true))
    } else {
        Err(Cause::BadLine)
    }
}

/// Whether the input buffer comes back.
pub fn input_of(words: &[u8]) -> Result<bool, Cause>
    ensures { result ≡ input_of (loose_words words.now) }
{
    match next_loose_word(words) {
        None => Ok(false),
        Some((word, rest)) if has_text(word, "input") && is_end(rest) => Ok(true),
        Some(_) => Err(Cause::BadLine),
    }
}
