//! The open frames, each with what it lacks.
ghost use Rattle.std.specs.Prelude.{◌≡◌, ◌+◌, ◌≤◌, ◌++◌, IfOk, IsTrue, OnOk, length, option_to_list, reverse};
ghost use Rattle.std.specs.List.{flat_map, list_all};
ghost use Rattle.cam_types.specs.Four.{four_list};
ghost use Rattle.trace_model.specs.Printable.{is_printable};
ghost use Rattle.explain_call.specs.Missing.{buffer_lack, is_open_in, metadata_lack, open_line, open_lines, what_lacks};

use cam_types::{Four, FrameNo, NoMemory};
use judge_filters::open::{is_metadata_ended, is_open, is_returned, is_settled};
use std::alloc::Global;
use trace_model::{Entry, Sent};
use trace_text::Printer;
use wrong_words::{LINE_LIMIT, put_line, put_number};

/// What is lacking of a target, by whether its buffer came back.
fn what_lacks(returned: bool) -> &'static str
    ensures { result.now ≡ what_lacks returned }
{
    if returned {
        "        lacks the picture of stream "
    } else {
        "        lacks the buffer of stream "
    }
}

/// Writes that the frame lacks the buffer of a target, if there is one and the device isn't done with it.
#[tactic(auto, unfolding(crate::specs::Missing::buffer_lack))]
fn put_buffer_lack(
    text: &mut Vec<u8>,
    alloc: Global,
    entries: &[Entry],
    frame: FrameNo,
    target: Option<Sent>,
) -> Result<(), NoMemory>
    ensures { OnOk result (text.new.items ≡ text.old.items
        ++ flat_map (buffer_lack frame.0 (reverse entries.now)) (option_to_list target)) }
{
    let Some(sent) = target else {
        return Ok(());
    };
    if is_settled(entries, frame, sent.stream) {
        return Ok(());
    }
    text.extend_from_slice(what_lacks(is_returned(entries, frame, sent.stream)).as_bytes())?;
    put_number(text, alloc, u64::from(sent.stream.0))?;
    text.extend_from_slice(b"\n")
}

/// Writes which buffers the frame lacks.
#[tactic(auto, using(crate::proofs::MissingLists::four_flat))]
fn put_buffer_lacks(
    text: &mut Vec<u8>,
    alloc: Global,
    entries: &[Entry],
    frame: FrameNo,
    targets: &Four<Sent>,
) -> Result<(), NoMemory>
    ensures { OnOk result (text.new.items ≡ text.old.items
        ++ flat_map (buffer_lack frame.0 (reverse entries.now)) (four_list targets.now)) }
{
    put_buffer_lack(text, alloc, entries, frame, targets.a)?;
    put_buffer_lack(text, alloc, entries, frame, targets.b)?;
    put_buffer_lack(text, alloc, entries, frame, targets.c)?;
    put_buffer_lack(text, alloc, entries, frame, targets.d)
}

/// Writes that the frame lacks metadata, where it does.
#[tactic(auto, unfolding(crate::specs::Missing::metadata_lack))]
fn put_metadata_lack(text: &mut Vec<u8>, entries: &[Entry], frame: FrameNo) -> Result<(), NoMemory>
    ensures { OnOk result (text.new.items ≡ text.old.items ++ metadata_lack frame.0 (reverse entries.now)) }
{
    if is_metadata_ended(entries, frame) {
        return Ok(());
    }
    text.extend_from_slice(b"        lacks metadata\n")
}

/// Whether the frame is open.
#[tactic(auto, unfolding(crate::specs::Missing::is_open_in))]
fn is_open_in(entries: &[Entry], frame: FrameNo) -> bool
    ensures { result ≡ is_open_in (reverse entries.now) frame.0 }
{
    is_open(entries, frame)
}

/// Writes what the frame lacks.
fn put_lacks(
    text: &mut Vec<u8>,
    alloc: Global,
    entries: &[Entry],
    frame: FrameNo,
    targets: &Four<Sent>,
) -> Result<(), NoMemory>
    ensures { OnOk result (text.new.items ≡ text.old.items
        ++ (metadata_lack frame.0 (reverse entries.now)
        ++ flat_map (buffer_lack frame.0 (reverse entries.now)) (four_list targets.now))) }
{
    put_metadata_lack(text, entries, frame)?;
    put_buffer_lacks(text, alloc, entries, frame, targets)
}

/// Writes the entry, where it sends a frame that is open, and what the frame lacks.
#[tactic(auto, unfolding(crate::specs::Missing::open_frame))]
fn put_open(
    text: &mut Vec<u8>,
    alloc: Global,
    printer: &mut Printer,
    entries: &[Entry],
    number: u64,
    entry: &Entry,
) -> Result<(), NoMemory>
    requires { IsTrue (is_printable entry.now) }
    ensures { OnOk result (text.new.items ≡ text.old.items ++ open_line (reverse entries.now) number entry.now) }
{
    let Entry::Send { frame, targets, .. } = entry else {
        return Ok(());
    };
    if !is_open_in(entries, *frame) {
        return Ok(());
    }
    put_line(text, alloc, printer, number, entry)?;
    put_lacks(text, alloc, entries, *frame, targets)
}

/// The open frames in the order of their sends, each with what it lacks. The line of the first entry has the number.
pub fn open_frames(
    alloc: Global,
    printer: &mut Printer,
    entries: &[Entry],
    number: u64,
) -> Result<Vec<u8>, NoMemory>
    requires printable { IsTrue (list_all is_printable entries.now) }
    requires numbers { number + length entries.now ≤ LINE_LIMIT }
    ensures { IfOk result (λ text. text.items ≡ open_lines (reverse entries.now) number entries.now) }
{
    let mut text = Vec::new(alloc);
    let mut number = number;
    let mut rest = entries;
    while let [entry, after @ ..] = rest {
        put_open(&mut text, alloc, printer, entries, number, entry)?;
        number += 1;
        rest = after;
    }
    Ok(text)
}
