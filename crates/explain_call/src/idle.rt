//! What of a script did nothing.
ghost use Rattle.std.specs.Prelude.{◌≡◌, ◌+◌, ◌≤◌, ◌++◌, IfOk, IsTrue, OnOk, length, reverse};
ghost use Rattle.std.specs.List.{list_all};
ghost use Rattle.explain_call.specs.Explained.{is_unmet, legal_text, refused_command, refused_line, refused_lines, refused_part, unmet_part};
ghost use Rattle.trace_model.specs.Printable.{is_printable};

use crate::script::put_found;
use call_parts::verdict_text;
use cam_types::{Fault, NoMemory, Script};
use judge_entries::entry::is_refusal;
use judge_filters::frame::{has_target, is_sent};
use std::alloc::Global;
use trace_model::{Entry, Verdict};
use trace_text::Printer;
use wrong_words::{LINE_LIMIT, command_line, fault_line, put_headed, put_line, put_picks_part};

/// Whether the fault is of a frame that was never sent, or of a stream that wasn't a target of it.
fn is_unmet(entries: &[Entry], fault: &Fault) -> bool
    ensures { result ≡ is_unmet (reverse entries.now) fault.now }
{
    match fault {
        Fault::Request(frame) | Fault::Result(frame) | Fault::Device(frame) => !is_sent(
            entries, *frame,
        ),
        Fault::Buffer(frame, stream) => !has_target(entries, *frame, *stream),
    }
}

/// Writes the faults that no frame met, each by its line, behind their heading.
#[tactic(auto, unfolding(crate::specs::Explained::unmet_part))]
fn put_unmet_part(
    text: &mut Vec<u8>,
    alloc: Global,
    script: &Script,
    part: &[u8],
    entries: &[Entry],
) -> Result<(), NoMemory>
    requires { length part.now ≤ 134217728 }
    ensures { OnOk result
        (text.new.items ≡ text.old.items ++ unmet_part script.now part.now (reverse entries.now)) }
{
    let mut lines = Vec::new(alloc);
    let mut place = 0;
    let mut rest = script.faults.as_slice();
    while let [fault, after @ ..] = rest {
        if is_unmet(entries, fault) {
            put_found(&mut lines, alloc, fault_line(part, place))?;
        }
        place += 1;
        rest = after;
    }
    put_headed(text, b"Faults that no frame met:\n", lines.as_slice())
}

/// Writes the line of the command that has this place in the script, and that of its call, which has the number.
#[tactic(auto, unfolding(crate::specs::Explained::refused_command))]
fn put_refused_command(
    text: &mut Vec<u8>,
    alloc: Global,
    printer: &mut Printer,
    part: &[u8],
    number: u64,
    place: u32,
    call: &Entry,
) -> Result<(), NoMemory>
    requires long { length part.now ≤ 134217728 }
    requires printable { IsTrue (is_printable call.now) }
    ensures { OnOk result (text.new.items ≡ text.old.items ++ refused_command part.now number place call.now) }
{
    put_found(text, alloc, command_line(part, place as usize))?;
    text.extend_from_slice(b"    ")?;
    put_line(text, alloc, printer, number, call)
}

/// Writes a command that was refused, where the entry refuses one. Its line has the number.
fn put_refused(
    text: &mut Vec<u8>,
    alloc: Global,
    printer: &mut Printer,
    part: &[u8],
    number: u64,
    entry: &Entry,
) -> Result<(), NoMemory>
    requires long { length part.now ≤ 134217728 }
    requires printable { IsTrue (is_printable entry.now) }
    ensures { OnOk result (text.new.items ≡ text.old.items ++ refused_line part.now number entry.now) }
{
    match entry {
        Entry::Call { index, reply, .. } if is_refusal(reply) => {
            put_refused_command(text, alloc, printer, part, number, *index, entry)
        }
        _ => Ok(()),
    }
}

/// Writes each command that was refused. The line of the first entry has the number.
fn put_refused_lines(
    alloc: Global,
    printer: &mut Printer,
    entries: &[Entry],
    part: &[u8],
    number: u64,
    text: &mut Vec<u8>,
) -> Result<(), NoMemory>
    requires long { length part.now ≤ 134217728 }
    requires printable { IsTrue (list_all is_printable entries.now) }
    requires numbers { number + length entries.now ≤ LINE_LIMIT }
    ensures { OnOk result (text.new.items ≡ text.old.items ++ refused_lines part.now number entries.now) }
{
    let mut number = number;
    let mut rest = entries;
    while let [entry, after @ ..] = rest {
        put_refused(text, alloc, printer, part, number, entry)?;
        number += 1;
        rest = after;
    }
    Ok(())
}

/// Writes the commands that were refused, behind their heading. The line of the first entry has the number.
#[tactic(auto, unfolding(crate::specs::Explained::refused_part))]
fn put_refused_part(
    text: &mut Vec<u8>,
    alloc: Global,
    printer: &mut Printer,
    part: &[u8],
    entries: &[Entry],
    number: u64,
) -> Result<(), NoMemory>
    requires long { length part.now ≤ 134217728 }
    requires printable { IsTrue (list_all is_printable entries.now) }
    requires numbers { number + length entries.now ≤ LINE_LIMIT }
    ensures { OnOk result (text.new.items ≡ text.old.items ++ refused_part part.now number entries.now) }
{
    let mut lines = Vec::new(alloc);
    put_refused_lines(alloc, printer, entries, part, number, &mut lines)?;
    put_headed(text, b"Commands that were refused:\n", lines.as_slice())
}

/// The text of a legal trace, whose first entry's line has the number. The script's played run has so many moves.
#[tactic(auto, unfolding(crate::specs::Explained::legal_text))]
pub fn legal_text(
    alloc: Global,
    printer: &mut Printer,
    script: &Script,
    part: &[u8],
    moves: u64,
    entries: &[Entry],
    number: u64,
) -> Result<Vec<u8>, NoMemory>
    requires long { length part.now ≤ 134217728 }
    requires printable { IsTrue (list_all is_printable entries.now) }
    requires numbers { number + length entries.now ≤ LINE_LIMIT }
    ensures { IfOk result (λ text. text.items ≡ legal_text script.now part.now moves number entries.now) }
{
    let mut text = verdict_text(alloc, Verdict::Legal)?;
    put_unmet_part(&mut text, alloc, script, part, entries)?;
    put_refused_part(&mut text, alloc, printer, part, entries, number)?;
    put_picks_part(&mut text, alloc, script, part, moves)?;
    Ok(text)
}
