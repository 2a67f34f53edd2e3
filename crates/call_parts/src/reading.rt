//! Reading a text line by line.
ghost use Rattle.std.specs.Prelude.{◌≡◌, ◌∷◌, ◌<◌, ◌≤◌, ◌^◌, IfOk, IfSome, Result, List, ℕ, Option, length};
ghost use Rattle.std.specs.Option.{option_map};
ghost use Rattle.text_parts.specs.LineWords.{good, one};
ghost use Rattle.text_parts.specs.Lines.{lines_of};
ghost use Rattle.text_parts.specs.Numbers.{number_within};
ghost use Rattle.text_parts.specs.Reader.{Answers, GivesBy};
ghost use Rattle.text_parts.specs.Words.{loose_words};
ghost use Rattle.call_parts.specs.Reading.{Grammar, after, after_words, at_end, is_version, named_number, text_from, text_of, two_numbers};

use cam_types::SCRIPT_BYTES;
use std::alloc::Global;
use text_parts::{
    Cause, LineRefused, TextRefused, is_end, is_printable, next_loose_word, number_within, refused,
    split_line,
};

/// What stands of a text behind some of its lines, the version line among them.
pub trait LineText: Drop {
    /// What a whole text means.
    type Text: Drop;

    /// What a grammar sees of what stands.
    ghost Stage: { Type 0 };

    ghost stage: { Self → Stage };

    /// What the texts mean.
    ghost grammar: { Grammar Stage Self.Text };

    /// What is true of each text that is read.
    ghost is_fit: { Self.Text → Type 0 };

    /// The name that begins the version line.
    fn name() -> &'static str
        ensures { result.now ≡ grammar.name };

    /// What stands behind the version line.
    fn begin(alloc: Global) -> Self
        ensures { stage result ≡ grammar.begun };

    /// What stands after one more line, by its first word and what stands behind that.
    fn with_line(self, alloc: Global, word: &[u8], rest: &[u8]) -> Result<Self, LineRefused>
        ensures { GivesBy stage result (grammar.with_line (stage self) word.now (loose_words rest.now)) };

    /// What is meant at the end, if all that it takes stands.
    fn finish(self) -> Option<Self::Text>
        ensures text { grammar.meant (stage self) ≡ result }
        ensures fit { IfSome result is_fit };
}

/// Whether a line is the name and `1`.
fn is_version(name: &str, word: &[u8], rest: &[u8]) -> bool
    ensures { result ≡ is_version name.now (word.now ∷ loose_words rest.now) }
{
    match next_loose_word(rest) {
        Some((number, behind)) => word == name.as_bytes()
            && number == b"1".as_slice()
            && is_end(behind),
        None => false,
    }
}

/// What stands after a line that isn't ignored.
#[tactic(auto, unfolding(crate::specs::Reading::after_words))]
fn after_words<D: LineText>(
    alloc: Global,
    before: Option<D>,
    word: &[u8],
    rest: &[u8],
) -> Result<Option<D>, LineRefused>
    ensures { GivesBy (option_map D.stage) result
        (after_words D.grammar (option_map D.stage before) word.now (loose_words rest.now)) }
{
    match before {
        Some(draft) => Ok(Some(draft.with_line(alloc, word, rest)?)),
        None if is_version(D::name(), word, rest) => Ok(Some(D::begin(alloc))),
        None => Err(LineRefused::Bad(Cause::Version)),
    }
}

/// What stands after a line.
#[tactic(auto, unfolding(crate::specs::Reading::after))]
fn after<D: LineText>(
    alloc: Global,
    before: Option<D>,
    line: &[u8],
) -> Result<Option<D>, LineRefused>
    ensures { GivesBy (option_map D.stage) result (after D.grammar (option_map D.stage before) line.now) }
{
    if !is_printable(line) {
        return Err(LineRefused::Bad(Cause::NotAscii));
    }
    match next_loose_word(line) {
        None | Some(([b'#', ..], _)) => Ok(before),
        Some((word, rest)) => after_words(alloc, before, word, rest),
    }
}

/// What stands at the end of a text, of which a next line would have the number.
fn at_end<D: LineText>(draft: Option<D>, line: u32) -> Result<D::Text, TextRefused>
    ensures exact { result ≡ at_end D.grammar line (option_map D.stage draft) }
    ensures fit { IfOk result D.is_fit }
{
    let Some(draft) = draft else {
        return Err(TextRefused::Bad {
            line,
            cause: Cause::Version,
        });
    };
    draft.finish().ok_or(TextRefused::Bad {
        line,
        cause: Cause::Missing,
    })
}

/// Reads a text, as `docs/FORMATS.md` has it. It takes time in the length of the text, and no memory but that of what it
/// means.
///
/// A refusal names the first line that has a cause, counted from 1, and the first of its causes. Line 0 stands for a
/// text of more than 65,536 bytes.
#[tactic(auto, unfolding(crate::specs::Reading::text_of))]
pub fn read_text<D: LineText>(alloc: Global, bytes: &[u8]) -> Result<D::Text, TextRefused>
    // What the text means, unless memory ran out.
    ensures exact { Answers result (text_of D.grammar bytes.now) }
    ensures fit { IfOk result D.is_fit }
{
    if bytes.len() > SCRIPT_BYTES {
        return Err(TextRefused::Bad {
            line: 0,
            cause: Cause::Limit,
        });
    }
    read_lines::<D>(alloc, bytes)
}

/// Reads the lines of a text.
#[tactic(auto, unfolding(crate::specs::Reading::text_from))]
fn read_lines<D: LineText>(alloc: Global, text: &[u8]) -> Result<D::Text, TextRefused>
    requires { length text.now ≤ SCRIPT_BYTES }
    ensures exact { Answers result (text_from D.grammar Option.None 1 (lines_of text.now)) }
    ensures fit { IfOk result D.is_fit }
{
    let mut draft = None;
    let mut number = 1;
    let mut rest = text;
    while let Some((line, behind)) = split_line(rest) {
        draft = after::<D>(alloc, draft, line).map_err(|why| refused(number, why))?;
        number += 1;
        rest = behind;
    }
    at_end(draft, number)
}

/// A number from the least to the greatest.
pub fn number_from_to(word: &[u8], least: u64, greatest: u64) -> Result<u32, Cause>
    requires { greatest < 2 ^ 32 }
    ensures value { result ≡ good (number_within least greatest word.now) }
    ensures within { IfOk result (λ n. (least ≤ n) × (n ≤ greatest)) }
{
    let number = number_within(word, least, greatest).ok_or(Cause::BadNumber)?;
    Ok(number as u32)
}

/// One number from the least to the greatest, and no more.
pub fn one_number_from_to(words: &[u8], least: u64, greatest: u64) -> Result<u32, Cause>
    requires { greatest < 2 ^ 32 }
    ensures value { result ≡ one (number_within least greatest) (loose_words words.now) }
    ensures within { IfOk result (λ n. (least ≤ n) × (n ≤ greatest)) }
{
    let (word, rest) = next_loose_word(words).ok_or(Cause::Missing)?;
    let number = number_from_to(word, least, greatest)?;
    if is_end(rest) {
        Ok(number)
    } else {
        Err(Cause::Extra)
    }
}

/// The number, from the least to the greatest, of a line that is the name and that number.
pub fn named_number(
    name: &str,
    word: &[u8],
    rest: &[u8],
    least: u64,
    greatest: u64,
) -> Result<u32, Cause>
    requires { greatest < 2 ^ 32 }
    ensures value { result ≡ named_number name.now least greatest word.now (loose_words rest.now) }
    ensures within { IfOk result (λ n. (least ≤ n) × (n ≤ greatest)) }
{
    if word == name.as_bytes() {
        one_number_from_to(rest, least, greatest)
    } else {
        Err(Cause::UnknownWord)
    }
}

/// Two numbers, and no more: the first one up to its greatest and the second one from 1 to its greatest.
#[tactic(auto, unfolding(crate::specs::Reading::two_numbers))]
pub fn two_numbers(words: &[u8], first: u64, second: u64) -> Result<(u32, u32), Cause>
    requires first { first < 2 ^ 32 }
    requires second { second < 2 ^ 32 }
    ensures value { result ≡ two_numbers first second (loose_words words.now) }
    ensures first { IfOk result (λ read. read.0 ≤ first) }
    ensures second { IfOk result (λ read. (1 ≤ read.1) × (read.1 ≤ second)) }
{
    let (word, rest) = next_loose_word(words).ok_or(Cause::Missing)?;
    let number = number_from_to(word, 0, first)?;
    let last = one_number_from_to(rest, 1, second)?;
    Ok((number, last))
}
