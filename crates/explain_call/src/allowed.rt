//! What is allowed in place of an entry.
ghost use Rattle.std.specs.Prelude.{◌≡◌, ◌++◌, IsTrue, OnOk, take};
ghost use Rattle.std.specs.List.{flat_map, list_all};
ghost use Rattle.allowed_entries.specs.Known.{prints};
ghost use Rattle.explain_call.specs.Allowed.{allowed_line, allowed_lines, allowed_part, filled_text, late_text, mark_text, more_mark, numbered, send_text};
ghost use Rattle.wrong_words.specs.Lines.{most_lines};

use allowed_entries::AllowedEntry;
use cam_types::{BufferId, DeviceFenceNo, FrameNo, NoMemory, RequestId, StreamIx};
use std::alloc::Global;
use trace_text::Printer;
use wrong_words::{MOST_LINES, put_number};

/// The mark of a send, whose buffers are free.
fn mark_text(same: bool) -> &'static str
    ensures { result.now ≡ mark_text same }
{
    if same { " same ..\n" } else { " new ..\n" }
}

/// Writes a number behind what tells of which it is.
#[tactic(auto, unfolding(crate::specs::Allowed::numbered))]
fn put_numbered(
    text: &mut Vec<u8>,
    alloc: Global,
    label: &[u8],
    number: u32,
) -> Result<(), NoMemory>
    ensures { OnOk result (text.new.items ≡ text.old.items ++ numbered label.now number) }
{
    text.extend_from_slice(label)?;
    put_number(text, alloc, u64::from(number))
}

/// Writes a send.
#[tactic(auto, unfolding(crate::specs::Allowed::send_text))]
fn put_send(
    text: &mut Vec<u8>,
    alloc: Global,
    frame: FrameNo,
    request: RequestId,
    item: u32,
    same: bool,
) -> Result<(), NoMemory>
    ensures { OnOk result (text.new.items ≡ text.old.items ++ send_text frame.0 request.0 item same) }
{
    put_numbered(text, alloc, b"send ", frame.0)?;
    put_numbered(text, alloc, b" r", request.0)?;
    put_numbered(text, alloc, b".", item)?;
    text.extend_from_slice(mark_text(same).as_bytes())
}

/// Writes a buffer that comes back with its picture.
#[tactic(auto, unfolding(crate::specs::Allowed::filled_text))]
fn put_filled(
    text: &mut Vec<u8>,
    alloc: Global,
    frame: FrameNo,
    stream: StreamIx,
    buffer: BufferId,
) -> Result<(), NoMemory>
    ensures { OnOk result (text.new.items ≡ text.old.items ++ filled_text frame.0 stream.0 buffer.0) }
{
    put_numbered(text, alloc, b"buffer ", frame.0)?;
    put_numbered(text, alloc, b" ", u32::from(stream.0))?;
    put_numbered(text, alloc, b" b", buffer.0)?;
    text.extend_from_slice(b" ok - ..\n")
}

/// Writes the signal of a device fence.
#[tactic(auto, unfolding(crate::specs::Allowed::late_text))]
fn put_late(text: &mut Vec<u8>, alloc: Global, fence: DeviceFenceNo) -> Result<(), NoMemory>
    ensures { OnOk result (text.new.items ≡ text.old.items ++ late_text fence.0) }
{
    put_numbered(text, alloc, b"filled d", fence.0)?;
    text.extend_from_slice(b" ..\n")
}

/// Writes the line of an entry that is allowed.
#[tactic(auto, unfolding(crate::specs::Allowed::allowed_line))]
fn put_line(
    text: &mut Vec<u8>,
    alloc: Global,
    printer: &mut Printer,
    allowed: &AllowedEntry,
) -> Result<(), NoMemory>
    requires { IsTrue (prints allowed.now) }
    ensures { OnOk result (text.new.items ≡ text.old.items ++ allowed_line allowed.now) }
{
    text.extend_from_slice(b"    ")?;
    match *allowed {
        AllowedEntry::Whole(entry) => text.extend_from_slice(printer.line(entry)),
        AllowedEntry::Send {
            frame,
            request,
            item,
            same,
        } => put_send(text, alloc, frame, request, item, same),
        AllowedEntry::Filled {
            frame,
            stream,
            buffer,
        } => put_filled(text, alloc, frame, stream, buffer),
        AllowedEntry::Late { fence } => put_late(text, alloc, fence),
    }
}

/// Writes the lines of the entries.
fn put_lines(
    text: &mut Vec<u8>,
    alloc: Global,
    printer: &mut Printer,
    list: &[AllowedEntry],
) -> Result<(), NoMemory>
    requires { IsTrue (list_all prints list.now) }
    ensures { OnOk result (text.new.items ≡ text.old.items ++ flat_map allowed_line list.now) }
{
    let mut rest = list;
    while let [allowed, after @ ..] = rest {
        put_line(text, alloc, printer, allowed)?;
        rest = after;
    }
    Ok(())
}

/// The entries that are shown: the first eight.
fn first_of(all: &[AllowedEntry]) -> &[AllowedEntry]
    requires { IsTrue (list_all prints all.now) }
    ensures value { result.now ≡ take most_lines all.now }
    ensures prints { IsTrue (list_all prints result.now) }
{
    if MOST_LINES < all.len() {
        &all[..MOST_LINES]
    } else {
        all
    }
}

/// Writes the lines of the first eight of the entries.
fn put_first_lines(
    text: &mut Vec<u8>,
    alloc: Global,
    printer: &mut Printer,
    all: &[AllowedEntry],
) -> Result<(), NoMemory>
    requires { IsTrue (list_all prints all.now) }
    ensures { OnOk result (text.new.items ≡ text.old.items ++ flat_map allowed_line (take most_lines all.now)) }
{
    put_lines(text, alloc, printer, first_of(all))
}

/// Writes that more are allowed, where more are than are shown.
fn put_more_mark(text: &mut Vec<u8>, all: &[AllowedEntry]) -> Result<(), NoMemory>
    ensures { OnOk result (text.new.items ≡ text.old.items ++ more_mark all.now) }
{
    if all.len() > MOST_LINES {
        text.extend_from_slice(b"    ..\n")
    } else {
        Ok(())
    }
}

/// Writes the first eight of the entries behind their heading.
#[tactic(auto, unfolding(crate::specs::Allowed::allowed_lines))]
fn put_allowed_lines(
    text: &mut Vec<u8>,
    alloc: Global,
    printer: &mut Printer,
    all: &[AllowedEntry],
) -> Result<(), NoMemory>
    requires { IsTrue (list_all prints all.now) }
    ensures { OnOk result (text.new.items ≡ text.old.items ++ allowed_lines all.now) }
{
    text.extend_from_slice(b"Allowed here:\n")?;
    put_first_lines(text, alloc, printer, all)?;
    put_more_mark(text, all)
}

/// Writes what is allowed, or that nothing is.
pub fn put_allowed_part(
    text: &mut Vec<u8>,
    alloc: Global,
    printer: &mut Printer,
    all: &[AllowedEntry],
) -> Result<(), NoMemory>
    requires { IsTrue (list_all prints all.now) }
    ensures { OnOk result (text.new.items ≡ text.old.items ++ allowed_part all.now) }
{
    if all.is_empty() {
        return text.extend_from_slice(b"Nothing is allowed here.\n");
    }
    put_allowed_lines(text, alloc, printer, all)
}
