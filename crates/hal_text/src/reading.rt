//! A hal log read from its text.

ghost use Rattle.std.specs.Prelude.{◌≡◌, ◌<◌, ◌≤◌, ◌+◌, Some, true, IfOk, IsTrue, OnOk, length};
ghost use Rattle.text_parts.specs.Words.{loose_words};
ghost use Rattle.hal_model.specs.Fits.{is_valid, is_well_made};
ghost use Rattle.hal_text.specs.Begun.{Knows};
ghost use Rattle.hal_text.specs.Drafts.{Stands, is_short};
ghost use Rattle.hal_text.specs.Meaning.{added, after, after_words, at_end, log_of};
ghost use Rattle.hal_lines.specs.Reader.{GivesBy, Refuses};
ghost use Rattle.hal_text.specs.Reader.{Answers};

use crate::begun::Begun;
use crate::log::HalLog;
use crate::refused::{LogRefused, refused};
use cam_types::Listing;
use hal_lines::{Cause, LineRefused, count_of, event_of};
use hal_model::HalEvent;
use std::alloc::Global;
use text_parts::{is_printable, next_loose_word, split_line};

/// The most bytes of a text.
pub const HAL_BYTES: usize = 134_217_728;

/// What stands after some lines: nothing that counts, or a log; and which of its calls have begun.
#[derive(Drop)]
pub struct Draft {
    pub log: Option<HalLog>,
    pub begun: Begun,
}

/// Puts an event behind those of a log. The log is of no use where there is an error.
fn add_event(
    log: &mut HalLog,
    begun: &mut Begun,
    line: u32,
    event: HalEvent,
) -> Result<(), LineRefused>
    requires knows { Knows begun.old log.old.events }
    requires valid { IsTrue (is_valid log.old.parts log.old.events) }
    requires event { IsTrue (is_well_made event) }
    requires few { length log.old.events < line }
    requires same { length log.old.lines ≡ length log.old.events }
    ensures value { GivesBy (λ _. Some log.new) result (added line log.old event) }
    ensures stands { OnOk result (Stands (Some log.new) begun.new) }
    ensures short { OnOk result (IsTrue (is_short (Some log.new) (line + 1))) }
{
    if !begun.has_begin(&event) {
        return Err(LineRefused::Bad(Cause::BadLine));
    }
    begun.note(&event)?;
    log.events.push(event)?;
    log.lines.push(line)?;
    Ok(())
}

/// Adds a line that isn't ignored.
#[tactic(auto, unfolding(crate::specs::Meaning::after_words))]
fn add_words(
    alloc: Global,
    draft: &mut Draft,
    line: u32,
    word: &[u8],
    words: &[u8],
) -> Result<(), LineRefused>
    requires stands { Stands draft.old.log draft.old.begun }
    requires short { IsTrue (is_short draft.old.log line) }
    ensures value { GivesBy (λ _. draft.new.log) result (after_words line draft.old.log word.now (loose_words words.now)) }
    ensures stands { OnOk result (Stands draft.new.log draft.new.begun) }
    ensures short { OnOk result (IsTrue (is_short draft.new.log (line + 1))) }
{
    match &mut draft.log {
        None => {
            let parts = count_of(word, words)?;
            draft.log = Some(HalLog {
                parts,
                events: Listing::new(alloc),
                lines: Listing::new(alloc),
            });
            Ok(())
        }
        Some(log) => {
            let event = event_of(alloc, word, words)?;
            add_event(log, &mut draft.begun, line, event)
        }
    }
}

/// Adds a line.
#[tactic(auto, unfolding(crate::specs::Meaning::after))]
fn add_line(alloc: Global, draft: &mut Draft, number: u32, line: &[u8]) -> Result<(), LineRefused>
    requires stands { Stands draft.old.log draft.old.begun }
    requires short { IsTrue (is_short draft.old.log number) }
    ensures value { GivesBy (λ _. draft.new.log) result (after number draft.old.log line.now) }
    ensures stands { OnOk result (Stands draft.new.log draft.new.begun) }
    ensures short { OnOk result (IsTrue (is_short draft.new.log (number + 1))) }
{
    if !is_printable(line) {
        return Err(LineRefused::Bad(Cause::BadLine));
    }
    match next_loose_word(line) {
        None | Some(([b'#', ..], _)) => Ok(()),
        Some((word, rest)) => add_words(alloc, draft, number, word, rest),
    }
}

/// What stands at the end of a text, of which a next line would have the number.
fn finish(draft: Draft, line: u32) -> Result<HalLog, LogRefused>
    requires { Stands draft.log draft.begun }
    ensures exact { Answers result (at_end line draft.log) }
    ensures valid { IfOk result (λ log. IsTrue (is_valid log.parts log.events)) }
{
    let Draft { log, begun: _ } = draft;
    log.ok_or(LogRefused::Bad {
        line,
        cause: Cause::Truncated,
    })
}

/// Reads a hal log, as `docs/FORMATS.md` has it: its events, and of each the number of its line. It takes time in the
/// length of the text, and memory for the log and for the numbers of its requests.
///
/// A refusal names the first line that has a cause, counted from 1, and the first of its causes. Line 0 stands for a
/// text of more than 134,217,728 bytes.
#[tactic(auto, unfolding(crate::specs::Meaning::log_of, crate::specs::Meaning::log_from))]
pub fn read(alloc: Global, bytes: &[u8]) -> Result<HalLog, LogRefused>
    // What the text means, unless memory ran out.
    ensures exact { Answers result (log_of bytes.now) }
    // Its lists are short, its errors have names, and each end has its begin.
    ensures valid { IfOk result (λ log. IsTrue (is_valid log.parts log.events)) }
    // Each event has the number of its line.
    ensures lines { IfOk result (λ log. length log.lines ≡ length log.events) }
{
    if bytes.len() > HAL_BYTES {
        return Err(LogRefused::Bad {
            line: 0,
            cause: Cause::TooLong,
        });
    }
    let mut draft = Draft {
        log: None,
        begun: Begun::new(alloc),
    };
    let mut number = 1;
    let mut rest = bytes;
    while let Some((line, behind)) = split_line(rest) {
        if let Err(why) = add_line(alloc, &mut draft, number, line) {
            return Err(refused(number, why));
        }
        number += 1;
        rest = behind;
    }
    finish(draft, number)
}
