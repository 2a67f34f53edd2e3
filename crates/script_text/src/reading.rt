//! A script read from its text.

ghost use Rattle.std.specs.Prelude.{◌≡◌, ◌∷◌, IsTrue, IfOk};
ghost use Rattle.std.specs.Option.{option_map};
ghost use Rattle.cam_types.specs.Script.{is_valid};
ghost use Rattle.text_parts.specs.CommandWords.{command_word};
ghost use Rattle.script_text.specs.Fits.{fits};
ghost use Rattle.text_parts.specs.Words.{loose_words};
ghost use Rattle.script_text.specs.Lines.{command_line, device_line, early_line, line_of, other_line};
ghost use Rattle.text_parts.specs.Reader.{GivesBy, Answers, refused};
ghost use Rattle.text_parts.specs.LineReading.{is_printable};
ghost use Rattle.script_text.specs.Grammar.{after, after_words, begun, script_of, then_added, version_number, version_of};

use crate::draft::Draft;
use crate::line::{command_of, device_of, fault_of};
use cam_types::{SCRIPT_BYTES, Script};
use std::alloc::Global;
use text_parts::{
    Cause, LineRefused, TextRefused, command_word, has_text, is_end, is_printable, next_loose_word,
    refused, split_line,
};

/// The version that a word names.
fn version_number(word: &[u8]) -> Option<u8>
    ensures { result ≡ version_number word.now }
{
    match word {
        b"1" => Some(1),
        b"2" => Some(2),
        _ => None,
    }
}

/// The version of a line that is `camera 1` or `camera 2`.
fn version_of(word: &[u8], rest: &[u8]) -> Option<u8>
    ensures { result ≡ version_of (word.now ∷ loose_words rest.now) }
{
    if !has_text(word, "camera") {
        return None;
    }
    let (number, rest) = next_loose_word(rest)?;
    if is_end(rest) {
        version_number(number)
    } else {
        None
    }
}

/// Adds a line that is a command, by its word and what stands behind it.
fn add_command(
    alloc: Global,
    draft: &mut Draft,
    word: &[u8],
    rest: &[u8],
) -> Result<(), LineRefused>
    ensures { GivesBy (λ _. begun draft.new.script draft.new.devices) result
        (then_added (begun draft.old.script draft.old.devices)
        (command_line (command_word word.now) (loose_words rest.now))) }
{
    let Some(word) = command_word(word) else {
        return Err(LineRefused::Bad(Cause::UnknownWord));
    };
    let command = command_of(alloc, word, rest)?;
    draft.add_command(command)
}

/// Adds a line `early`, by what stands behind the word.
fn add_early(draft: &mut Draft, rest: &[u8]) -> Result<(), LineRefused>
    ensures { GivesBy (λ _. begun draft.new.script draft.new.devices) result
        (then_added (begun draft.old.script draft.old.devices) (early_line (loose_words rest.now))) }
{
    if is_end(rest) {
        draft.add_early()
    } else {
        Err(LineRefused::Bad(Cause::Extra))
    }
}

/// Adds a device line, by what stands behind the word.
fn add_device(draft: &mut Draft, rest: &[u8]) -> Result<(), LineRefused>
    ensures { GivesBy (λ _. begun draft.new.script draft.new.devices) result
        (then_added (begun draft.old.script draft.old.devices)
        (device_line draft.old.script.version (loose_words rest.now))) }
{
    if draft.version() != 2 {
        return Err(LineRefused::Bad(Cause::UnknownWord));
    }
    let profile = device_of(rest)?;
    draft.add_device(profile)
}

/// Adds a line that is neither a fault nor a pick line, by its first word and what stands behind it.
#[tactic(auto, unfolding(crate::specs::Lines::other_line))]
fn add_other_line(
    alloc: Global,
    draft: &mut Draft,
    word: &[u8],
    rest: &[u8],
) -> Result<(), LineRefused>
    ensures { GivesBy (λ _. begun draft.new.script draft.new.devices) result
        (then_added (begun draft.old.script draft.old.devices)
        (other_line draft.old.script.version word.now (loose_words rest.now))) }
{
    if has_text(word, "early") {
        add_early(draft, rest)
    } else if has_text(word, "device") {
        add_device(draft, rest)
    } else {
        add_command(alloc, draft, word, rest)
    }
}

/// Adds a line, by its first word and what stands behind it.
#[tactic(auto, unfolding(crate::specs::Lines::line_of))]
fn add_line(alloc: Global, draft: &mut Draft, word: &[u8], rest: &[u8]) -> Result<(), LineRefused>
    ensures { GivesBy (λ _. begun draft.new.script draft.new.devices) result
        (then_added (begun draft.old.script draft.old.devices)
        (line_of draft.old.script.version word.now (loose_words rest.now))) }
{
    if has_text(word, "fault") {
        let fault = fault_of(rest)?;
        draft.add_fault(fault)
    } else if has_text(word, "pick") {
        draft.add_picks(alloc, rest)
    } else {
        add_other_line(alloc, draft, word, rest)
    }
}

/// What stands after a line that isn't ignored.
#[tactic(auto, unfolding(crate::specs::Grammar::after_words))]
fn after_words(
    alloc: Global,
    before: Option<Draft>,
    word: &[u8],
    rest: &[u8],
) -> Result<Option<Draft>, LineRefused>
    ensures { GivesBy (option_map (λ d. begun d.script d.devices)) result
        (after_words (option_map (λ d. begun d.script d.devices) before) word.now (loose_words rest.now)) }
{
    if let Some(mut draft) = before {
        add_line(alloc, &mut draft, word, rest)?;
        return Ok(Some(draft));
    }
    let Some(version) = version_of(word, rest) else {
        return Err(LineRefused::Bad(Cause::Version));
    };
    Ok(Some(Draft::new(alloc, version)))
}

/// What stands after a line.
#[tactic(auto, unfolding(crate::specs::Grammar::after))]
fn after(alloc: Global, before: Option<Draft>, line: &[u8]) -> Result<Option<Draft>, LineRefused>
    ensures { GivesBy (option_map (λ d. begun d.script d.devices)) result
        (after (option_map (λ d. begun d.script d.devices) before) line.now) }
{
    if !is_printable(line) {
        return Err(LineRefused::Bad(Cause::NotAscii));
    }
    match next_loose_word(line) {
        None | Some(([b'#', ..], _)) => Ok(before),
        Some((word, rest)) => after_words(alloc, before, word, rest),
    }
}

/// Reads a client script, as `docs/FORMATS.md` has it. It takes time in the length of the text, and no memory but
/// the script's.
///
/// A refusal names the first line that has a cause, counted from 1, and the first of its causes. Line 0 stands for a
/// text of more than 65,536 bytes.
#[tactic(auto, unfolding(crate::specs::Grammar::script_of, crate::specs::Grammar::script_from))]
pub fn read(alloc: Global, bytes: &[u8]) -> Result<Script, TextRefused>
    // What the text means, unless memory ran out.
    ensures exact { Answers result (script_of bytes.now) }
    // Only valid scripts are read, with numbers within their types.
    ensures valid { IfOk result (λ script. IsTrue (is_valid script)) }
    ensures fits { IfOk result (λ script. IsTrue (fits script)) }
{
    if bytes.len() > SCRIPT_BYTES {
        return Err(TextRefused::Bad {
            line: 0,
            cause: Cause::Limit,
        });
    }
    let mut draft = None;
    let mut number = 1;
    let mut rest = bytes;
    while let Some((line, behind)) = split_line(rest) {
        match after(alloc, draft, line) {
            Ok(next) => draft = next,
            Err(why) => return Err(refused(number, why)),
        }
        number += 1;
        rest = behind;
    }
    match draft {
        Some(draft) => Ok(draft.finish()?),
        None => Err(TextRefused::Bad {
            line: number,
            cause: Cause::Version,
        }),
    }
}
