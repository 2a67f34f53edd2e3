//! A trace read from its text.

ghost use Rattle.std.specs.Prelude.{◌≡◌, ◌<◌, ◌≤◌, ◌+◌, length};
ghost use Rattle.text_parts.specs.Cuts.{parts_at};
ghost use Rattle.trace_reader.specs.Grammar.{entries_from, trace_of};
ghost use Rattle.trace_reader.specs.Reader.{AnswersTrace, refused};

use crate::cause::{Cause, LineRefused, TraceRefused};
use crate::first::named_profile;
use crate::line::entry_of;
use cam_types::Listing;
use std::alloc::Global;
use text_parts::{has_text, split_at_byte};
use trace_model::{Entry, TraceList};

/// The most bytes of a text.
pub const TRACE_BYTES: usize = 134_217_728;

/// The refusal of a line by its number.
fn refused(line: u32, why: LineRefused) -> TraceRefused
    ensures { result ≡ refused line why }
{
    match why {
        LineRefused::Bad(cause) => TraceRefused::Bad { line, cause },
        LineRefused::NoMemory => TraceRefused::NoMemory,
    }
}

/// The refusal of a line by its number, for a cause.
fn bad(line: u32, cause: Cause) -> TraceRefused
    ensures { result ≡ TraceRefused.Bad line cause }
{
    TraceRefused::Bad { line, cause }
}

/// The entries of the lines from a number on, up to `end`.
#[tactic(auto, unfolding(crate::specs::Grammar::entries_from))]
fn entries_from(alloc: Global, first: u32, text: &[u8]) -> Result<Listing<Entry>, TraceRefused>
    requires long { length text.now < TRACE_BYTES }
    requires numbers { first + length text.now ≤ 268435457 }
    ensures { AnswersTrace result (entries_from first (parts_at 10 text.now)) }
{
    let mut entries = Listing::new(alloc);
    let mut number = first;
    let mut rest = text;
    while let Some((line, behind)) = split_at_byte(rest, b'\n') {
        if has_text(line, "end") {
            if behind.is_empty() {
                return Ok(entries);
            }
            return Err(bad(number + 1, Cause::BadLine));
        }
        match entry_of(alloc, line) {
            Ok(entry) => entries.push(entry)?,
            Err(why) => return Err(refused(number, why)),
        }
        number += 1;
        rest = behind;
    }
    Err(bad(number, Cause::Truncated))
}

/// Reads a trace, as `docs/FORMATS.md` has it. Its lines are numbered from `first_line` on.
///
/// A refusal names the first line that has a cause, and the first of its causes.
#[tactic(auto, unfolding(crate::specs::Grammar::trace_of, crate::specs::Grammar::trace_from))]
pub fn read(alloc: Global, bytes: &[u8], first_line: u32) -> Result<TraceList, TraceRefused>
    requires long { length bytes.now ≤ TRACE_BYTES }
    requires some { 1 ≤ first_line }
    requires numbers { first_line ≤ TRACE_BYTES + 1 }
    // What the text means, unless memory ran out.
    ensures { AnswersTrace result (trace_of first_line bytes.now) }
{
    let Some((line, rest)) = split_at_byte(bytes, b'\n') else {
        return Err(bad(first_line, Cause::Truncated));
    };
    match named_profile(line) {
        Ok(profile) => {
            let entries = entries_from(alloc, first_line + 1, rest)?;
            Ok(TraceList { profile, entries })
        }
        Err(cause) => Err(bad(first_line, cause)),
    }
}
