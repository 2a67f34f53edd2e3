//! The lines of those entries that a question chooses.
ghost use Rattle.std.specs.Prelude.{◌≡◌, ◌+◌, ◌≤◌, ◌++◌, IsTrue, OnOk, count_by, decimal, length};
ghost use Rattle.std.specs.List.{list_all};
ghost use Rattle.trace_model.specs.Printable.{is_printable};
ghost use Rattle.wrong_words.specs.Lines.{headed, last_lines_where, lines_behind, lines_where, shown_line, skip_after};

use crate::choice::Choice;
use cam_types::NoMemory;
use std::alloc::Global;
use trace_model::Entry;
use trace_text::Printer;

/// No line of an input has a greater number.
pub const LINE_LIMIT: u64 = 1 << 40;

/// How many lines are shown where there may be many.
pub const MOST_LINES: usize = 8;

/// Writes a number.
pub fn put_number(text: &mut Vec<u8>, alloc: Global, number: u64) -> Result<(), NoMemory>
    ensures { OnOk result (text.new.items ≡ text.old.items ++ decimal number) }
{
    text.extend_from_slice(number.to_string(alloc)?.as_bytes())
}

/// Writes a text behind its heading, where there is any.
pub fn put_headed(text: &mut Vec<u8>, heading: &[u8], body: &[u8]) -> Result<(), NoMemory>
    ensures { OnOk result (text.new.items ≡ text.old.items ++ headed heading.now body.now) }
{
    if body.is_empty() {
        return Ok(());
    }
    text.extend_from_slice(heading)?;
    text.extend_from_slice(body)
}

/// Writes the line of an entry, with the number of that line.
#[tactic(auto, unfolding(crate::specs::Lines::shown_line))]
pub fn put_line(
    text: &mut Vec<u8>,
    alloc: Global,
    printer: &mut Printer,
    number: u64,
    entry: &Entry,
) -> Result<(), NoMemory>
    requires { IsTrue (is_printable entry.now) }
    ensures { OnOk result (text.new.items ≡ text.old.items ++ shown_line number entry.now) }
{
    text.extend_from_slice(b"    line ")?;
    put_number(text, alloc, number)?;
    text.extend_from_slice(b"  ")?;
    text.extend_from_slice(printer.line(*entry))
}

/// Writes the lines of the entries that are chosen, where the first one has the number.
pub fn put_lines<C: Choice>(
    text: &mut Vec<u8>,
    alloc: Global,
    printer: &mut Printer,
    choice: &C,
    number: u64,
    entries: &[Entry],
) -> Result<(), NoMemory>
    requires printable { IsTrue (list_all is_printable entries.now) }
    requires numbers { number + length entries.now ≤ LINE_LIMIT }
    ensures { OnOk result (text.new.items ≡ text.old.items ++ lines_where (C.test choice.now) number entries.now) }
{
    let mut number = number;
    let mut rest = entries;
    while let [entry, after @ ..] = rest {
        if choice.holds(entry) {
            put_line(text, alloc, printer, number, entry)?;
        }
        number += 1;
        rest = after;
    }
    Ok(())
}

/// How many of the entries are chosen.
fn count<C: Choice>(choice: &C, entries: &[Entry]) -> usize
    ensures value { result ≡ count_by (C.test choice.now) entries.now }
{
    let mut count = 0;
    for entry in entries {
        if choice.holds(entry) {
            count += 1;
        }
    }
    count
}

/// How many lines are to be skipped behind an entry.
fn skip_after(chosen: bool, skip: usize) -> usize
    ensures { result ≡ skip_after chosen skip }
{
    if chosen { skip.saturating_sub(1) } else { skip }
}

/// Writes the lines of the entries that are chosen, without the first so many. The first entry has the number.
fn put_lines_behind<C: Choice>(
    text: &mut Vec<u8>,
    alloc: Global,
    printer: &mut Printer,
    choice: &C,
    skip: usize,
    number: u64,
    entries: &[Entry],
) -> Result<(), NoMemory>
    requires printable { IsTrue (list_all is_printable entries.now) }
    requires numbers { number + length entries.now ≤ LINE_LIMIT }
    ensures { OnOk result
        (text.new.items ≡ text.old.items ++ lines_behind (C.test choice.now) skip number entries.now) }
{
    let mut skip = skip;
    let mut number = number;
    let mut rest = entries;
    while let [entry, after @ ..] = rest {
        let chosen = choice.holds(entry);
        if chosen && skip == 0 {
            put_line(text, alloc, printer, number, entry)?;
        }
        skip = skip_after(chosen, skip);
        number += 1;
        rest = after;
    }
    Ok(())
}

/// Writes the lines of the last eight of the entries that are chosen, where the first one has the number.
pub fn put_last_lines<C: Choice>(
    text: &mut Vec<u8>,
    alloc: Global,
    printer: &mut Printer,
    choice: &C,
    number: u64,
    entries: &[Entry],
) -> Result<(), NoMemory>
    requires printable { IsTrue (list_all is_printable entries.now) }
    requires numbers { number + length entries.now ≤ LINE_LIMIT }
    ensures { OnOk result
        (text.new.items ≡ text.old.items ++ last_lines_where (C.test choice.now) number entries.now) }
{
    let skip = count(choice, entries).saturating_sub(MOST_LINES);
    put_lines_behind(text, alloc, printer, choice, skip, number, entries)
}
