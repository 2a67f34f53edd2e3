//! The lines of a trace, one at a time.

ghost use Rattle.std.specs.Prelude.{◌≡◌, ◌≤◌, ◌+◌, ◌++◌, length, IfOk, IsTrue};
ghost use Rattle.trace_model.specs.Printable.{is_printable};
ghost use Rattle.trace_model.specs.Summary.{summary_of};
ghost use Rattle.trace_text.specs.Spelling.{first_line_of, line_of};
ghost use Rattle.trace_text.specs.Summary.{summary_line};

use crate::call::{put_begin, put_call};
use crate::first::put_first;
use crate::frame::{
    put_drop, put_early, put_error_buffer, put_error_request, put_error_result, put_failed,
    put_filled, put_late, put_partial, put_release, put_send, put_shutter, put_signal,
};
use crate::summary::put_summary;
use cam_types::{NoMemory, Profile};
use io_edge::{ROOM, Room};
use std::alloc::Global;
use std::marker::Model;
use trace_model::Entry;

/// Writes the lines of a trace. Its room, of 4,096 bytes, is taken when it is made, and no line takes memory. A
/// contract sees the profile that its first line names.
#[derive(Drop)]
pub struct Printer {
    named: Option<Profile>,
    room: Room,
}

impl Model for Printer {
    ghost use Rattle.std.specs.Prelude.{Option};
    ghost use Rattle.cam_types.specs.declared.profile.Profile.{Profile as AProfile};

    ghost Value = { Option AProfile };

    ghost view = { λ p. p.named };
}

/// Writes the line of an entry.
#[tactic(auto, unfolding(crate::specs::Spelling::line_of))]
fn put_entry(room: &mut Room, entry: Entry)
    requires printable { IsTrue (is_printable entry) }
    requires room { length room.old + 250 ≤ ROOM }
    ensures { room.new ≡ room.old ++ line_of entry }
{
    match entry {
        Entry::Begin { word } => put_begin(room, word),
        Entry::Call { index, word, reply } => put_call(room, index, word, reply),
        Entry::Send {
            frame,
            request,
            item,
            same,
            targets,
        } => put_send(room, frame, request, item, same, targets),
        Entry::Dropped {
            frame,
            request,
            item,
        } => put_drop(room, frame, request, item),
        Entry::Shutter { frame, time } => put_shutter(room, frame, time),
        Entry::Partial {
            frame,
            number,
            part,
        } => put_partial(room, frame, number, part),
        Entry::Filled {
            frame,
            stream,
            buffer,
            fence,
            digest,
        } => put_filled(room, frame, stream, buffer, fence, digest),
        Entry::Failed {
            frame,
            stream,
            buffer,
            fence,
        } => put_failed(room, frame, stream, buffer, fence),
        Entry::ErrorRequest { frame } => put_error_request(room, frame),
        Entry::ErrorResult { frame } => put_error_result(room, frame),
        Entry::ErrorBuffer { frame, stream } => put_error_buffer(room, frame, stream),
        Entry::ErrorDevice => room.put(b"error device\n"),
        Entry::Release { buffer, fence } => put_release(room, buffer, fence),
        Entry::Signal { fence } => put_signal(room, fence),
        Entry::Early {
            frame,
            stream,
            buffer,
            fence,
        } => put_early(room, frame, stream, buffer, fence),
        Entry::Late { fence, digest } => put_late(room, fence, digest),
    }
}

impl Printer {
    /// A printer with its room, for traces of the first version, or of the second where a profile is named.
    pub fn new(alloc: Global, profile: Option<Profile>) -> Result<Printer, NoMemory>
        ensures { IfOk result (λ printer. printer ≡ profile) }
    {
        let room = Room::new(alloc)?;
        Ok(Printer {
            named: profile,
            room,
        })
    }

    /// The first line of a trace, with its end, as `docs/FORMATS.md` has it. It takes no memory.
    pub fn first_line(&mut self) -> &[u8]
        ensures { result.now ≡ first_line_of self.old }
    {
        self.room.clear();
        put_first(&mut self.room, self.named);
        self.room.bytes()
    }

    /// The line of an entry, with its end, as `docs/FORMATS.md` has it. It takes no memory.
    pub fn line(&mut self, entry: Entry) -> &[u8]
        requires { IsTrue (is_printable entry) }
        ensures { result.now ≡ line_of entry }
    {
        self.room.clear();
        put_entry(&mut self.room, entry);
        self.room.bytes()
    }

    /// The line of a trace's summary, with its end, as `docs/FORMATS.md` has it. It takes no memory.
    pub fn summary(&mut self, trace: &[Entry]) -> &[u8]
        ensures { result.now ≡ summary_line (summary_of trace.now) }
    {
        self.room.clear();
        put_summary(&mut self.room, trace);
        self.room.bytes()
    }
}
