//! How each line of a run is written.
ghost use Rattle.std.specs.Prelude.{◌≡◌, ◌≤◌, ◌+◌, ◌++◌, length, map, option_to_list};
ghost use Rattle.cam_types.specs.Four.{four_list};
ghost use Rattle.text_parts.specs.Lines.{line_text};
ghost use Rattle.reprocess_call.specs.Lines.{behind_spaces, line_of, line_words, out_text, place_text};

use cam_types::{BufferId, Four, FrameNo, NoMemory, StreamIx};
use io_edge::{ROOM, Room};
use reprocess_model::{InputId, ReEntry, ReOut};
use std::alloc::Global;

/// Writes the lines of runs. Its room, of 4,096 bytes, is taken when it is made, and no line takes memory.
#[derive(Drop)]
pub struct LinePrinter {
    room: Room,
}

impl LinePrinter {
    /// A printer with its room.
    pub fn new(alloc: Global) -> Result<LinePrinter, NoMemory> {
        let room = Room::new(alloc)?;
        Ok(LinePrinter { room })
    }

    /// The line, with its end, as `docs/FORMATS.md` has it. It takes no memory.
    pub fn line(&mut self, line: ReEntry) -> &[u8]
        ensures { result.now ≡ line_of line }
    {
        self.room.clear();
        put_line(&mut self.room, line);
        self.room.bytes()
    }
}

/// Writes an output with its buffer, behind a space, if there is one.
fn put_out(room: &mut Room, given: Option<ReOut>)
    requires { length room.old + 40 ≤ ROOM }
    ensures text { room.new ≡ room.old ++ behind_spaces (map out_text (option_to_list given)) }
    ensures len { length room.new ≤ length room.old + 40 }
{
    if let Some(given) = given {
        room.put(b" ");
        room.put_small(u32::from(given.stream.0));
        room.put(b":b");
        room.put_small(given.buffer.0);
    }
}

/// Writes outputs with their buffers.
fn put_outs(room: &mut Room, given: Four<ReOut>)
    requires { length room.old + 160 ≤ ROOM }
    ensures text { room.new ≡ room.old ++ behind_spaces (map out_text (four_list given)) }
    ensures len { length room.new ≤ length room.old + 160 }
{
    put_out(room, given.a);
    put_out(room, given.b);
    put_out(room, given.c);
    put_out(room, given.d);
}

/// Writes the line of a call that was accepted.
fn put_called(room: &mut Room, index: u32)
    requires { length room.old + 50 ≤ ROOM }
    ensures { room.new ≡ room.old ++ line_text (line_words (ReEntry.Called index)) }
{
    room.put(b"call ");
    room.put_small(index);
    room.put(b" request = ok\n");
}

/// Writes the line of a flush that returned.
fn put_flushed(room: &mut Room, index: u32)
    requires { length room.old + 50 ≤ ROOM }
    ensures { room.new ≡ room.old ++ line_text (line_words (ReEntry.Flushed index)) }
{
    room.put(b"call ");
    room.put_small(index);
    room.put(b" flush = ok\n");
}

/// Writes the line of a take.
fn put_take(room: &mut Room, frame: FrameNo, input: InputId, outputs: Four<ReOut>)
    requires { length room.old + 250 ≤ ROOM }
    ensures { room.new ≡ room.old ++ line_text (line_words (ReEntry.Take frame input outputs)) }
{
    room.put(b"take ");
    room.put_small(frame.0);
    room.put(b" i");
    room.put_small(input.0);
    put_outs(room, outputs);
    room.put(b"\n");
}

/// Writes the line of a drop.
fn put_dropped(room: &mut Room, frame: FrameNo)
    requires { length room.old + 50 ≤ ROOM }
    ensures { room.new ≡ room.old ++ line_text (line_words (ReEntry.Dropped frame)) }
{
    room.put(b"drop ");
    room.put_small(frame.0);
    room.put(b"\n");
}

/// Writes the line of an error.
fn put_error(room: &mut Room, frame: FrameNo)
    requires { length room.old + 50 ≤ ROOM }
    ensures { room.new ≡ room.old ++ line_text (line_words (ReEntry.Error frame)) }
{
    room.put(b"error ");
    room.put_small(frame.0);
    room.put(b"\n");
}

/// Writes a frame, a stream and a buffer, with a space between them.
fn put_place(room: &mut Room, frame: FrameNo, stream: StreamIx, buffer: BufferId)
    requires { length room.old + 40 ≤ ROOM }
    ensures text { room.new ≡ room.old ++ place_text frame.0 stream.0 buffer.0 }
    ensures len { length room.new ≤ length room.old + 40 }
{
    room.put_small(frame.0);
    room.put(b" ");
    room.put_small(u32::from(stream.0));
    room.put(b" b");
    room.put_small(buffer.0);
}

/// Writes the line of a buffer that comes back with nothing in it.
fn put_failed(room: &mut Room, frame: FrameNo, stream: StreamIx, buffer: BufferId)
    requires { length room.old + 100 ≤ ROOM }
    ensures { room.new ≡ room.old ++ line_text (line_words (ReEntry.Failed frame stream buffer)) }
{
    room.put(b"failed ");
    put_place(room, frame, stream, buffer);
    room.put(b"\n");
}

/// Writes the line of a buffer that comes back with its picture.
fn put_fill(room: &mut Room, frame: FrameNo, stream: StreamIx, buffer: BufferId, digest: [u8; 32])
    requires { length room.old + 200 ≤ ROOM }
    ensures { room.new ≡ room.old ++ line_text (line_words (ReEntry.Fill frame stream buffer digest)) }
{
    room.put(b"fill ");
    put_place(room, frame, stream, buffer);
    room.put(b" ");
    room.put_hex(&digest);
    room.put(b"\n");
}

/// Writes the line of an input that comes back.
fn put_input(room: &mut Room, frame: FrameNo, input: InputId)
    requires { length room.old + 50 ≤ ROOM }
    ensures { room.new ≡ room.old ++ line_text (line_words (ReEntry.Input frame input)) }
{
    room.put(b"input ");
    room.put_small(frame.0);
    room.put(b" i");
    room.put_small(input.0);
    room.put(b"\n");
}

/// Writes a line.
#[tactic(auto, unfolding(crate::specs::Lines::line_of))]
fn put_line(room: &mut Room, line: ReEntry)
    requires { length room.old + 250 ≤ ROOM }
    ensures { room.new ≡ room.old ++ line_of line }
{
    match line {
        ReEntry::Called { index } => put_called(room, index),
        ReEntry::BeginFlush => room.put(b"begin flush\n"),
        ReEntry::Flushed { index } => put_flushed(room, index),
        ReEntry::Take {
            frame,
            input,
            outputs,
        } => put_take(room, frame, input, outputs),
        ReEntry::Dropped { frame } => put_dropped(room, frame),
        ReEntry::Error { frame } => put_error(room, frame),
        ReEntry::Failed {
            frame,
            stream,
            buffer,
        } => put_failed(room, frame, stream, buffer),
        ReEntry::Fill {
            frame,
            stream,
            buffer,
            digest,
        } => put_fill(room, frame, stream, buffer, digest),
        ReEntry::Input { frame, input } => put_input(room, frame, input),
    }
}
