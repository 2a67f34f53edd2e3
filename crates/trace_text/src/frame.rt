//! The lines of a frame's events, and those of fences.

ghost use Rattle.std.specs.Prelude.{◌≡◌, ◌≤◌, ◌+◌, ◌++◌, ◌∷◌, length, map, option_to_list};
ghost use Rattle.cam_types.specs.Four.{four_list};
ghost use Rattle.metadata.specs.Parts.{PartFits};
ghost use Rattle.text_parts.specs.Lines.{line_text};
ghost use Rattle.trace_text.specs.Spelling.{behind_spaces, sent_text, part_text, mark_text, place_text, entry_words};

use crate::word::{put_fence, put_item, put_numbered};
use cam_types::{
    BufferId, DeviceFenceNo, FenceNo, Four, FrameNo, PartialResult, RequestId, StreamIx,
};
use io_edge::{ROOM, Room};
use metadata::part_bytes;
use trace_model::{Entry, Sent};

/// Writes a target behind a space, if there is one.
fn put_sent(room: &mut Room, sent: Option<Sent>)
    requires { length room.old + 40 ≤ ROOM }
    ensures text { room.new ≡ room.old ++ behind_spaces (map sent_text (option_to_list sent)) }
    ensures len { length room.new ≤ length room.old + 40 }
{
    if let Some(sent) = sent {
        room.put(b" ");
        room.put_small(u32::from(sent.stream.0));
        room.put(b":");
        put_numbered(room, b'b', sent.buffer.0);
        room.put(b":");
        put_fence(room, sent.fence);
    }
}

/// Writes targets.
fn put_targets(room: &mut Room, targets: Four<Sent>)
    requires { length room.old + 160 ≤ ROOM }
    ensures text { room.new ≡ room.old ++ behind_spaces (map sent_text (four_list targets)) }
    ensures len { length room.new ≤ length room.old + 160 }
{
    put_sent(room, targets.a);
    put_sent(room, targets.b);
    put_sent(room, targets.c);
    put_sent(room, targets.d);
}

/// Writes the mark of a send.
fn put_mark(room: &mut Room, same: bool)
    requires { length room.old + 5 ≤ ROOM }
    ensures text { room.new ≡ room.old ++ 32 ∷ mark_text same }
    ensures len { length room.new ≤ length room.old + 5 }
{
    if same {
        room.put(b" same");
    } else {
        room.put(b" new");
    }
}

/// Writes the line of a send.
pub fn put_send(
    room: &mut Room,
    frame: FrameNo,
    request: RequestId,
    item: u32,
    same: bool,
    targets: Four<Sent>,
)
    requires { length room.old + 250 ≤ ROOM }
    ensures { room.new ≡ room.old ++ line_text (entry_words (Entry.Send frame request item same targets)) }
{
    room.put(b"send ");
    room.put_small(frame.0);
    room.put(b" ");
    put_item(room, request, item);
    put_mark(room, same);
    put_targets(room, targets);
    room.put(b"\n");
}

/// Writes the line of a drop.
pub fn put_drop(room: &mut Room, frame: FrameNo, request: RequestId, item: u32)
    requires { length room.old + 50 ≤ ROOM }
    ensures { room.new ≡ room.old ++ line_text (entry_words (Entry.Dropped frame request item)) }
{
    room.put(b"drop ");
    room.put_small(frame.0);
    room.put(b" ");
    put_item(room, request, item);
    room.put(b"\n");
}

/// Writes the line of a shutter.
pub fn put_shutter(room: &mut Room, frame: FrameNo, time: u64)
    requires { length room.old + 50 ≤ ROOM }
    ensures { room.new ≡ room.old ++ line_text (entry_words (Entry.Shutter frame time)) }
{
    room.put(b"shutter ");
    room.put_small(frame.0);
    room.put(b" ");
    room.put_large(time);
    room.put(b"\n");
}

/// Writes the packed metadata of a part.
fn put_part(room: &mut Room, part: PartialResult)
    requires fits { PartFits part }
    requires room { length room.old + 112 ≤ ROOM }
    ensures text { room.new ≡ room.old ++ part_text part }
    ensures len { length room.new ≤ length room.old + 112 }
{
    let packed = part_bytes(part);
    room.put_hex(&packed.bytes[..packed.used as usize]);
}

/// Writes the line of a partial result.
pub fn put_partial(room: &mut Room, frame: FrameNo, number: u8, part: PartialResult)
    requires fits { PartFits part }
    requires room { length room.old + 200 ≤ ROOM }
    ensures { room.new ≡ room.old ++ line_text (entry_words (Entry.Partial frame number part)) }
{
    room.put(b"partial ");
    room.put_small(frame.0);
    room.put(b" ");
    room.put_small(u32::from(number));
    room.put(b" ");
    put_part(room, part);
    room.put(b"\n");
}

/// Writes the frame, the stream and the buffer of a buffer that comes back, each behind a space.
fn put_place(room: &mut Room, frame: FrameNo, stream: StreamIx, buffer: BufferId)
    requires { length room.old + 40 ≤ ROOM }
    ensures text { room.new ≡ room.old ++ place_text frame.0 stream.0 buffer.0 }
    ensures len { length room.new ≤ length room.old + 40 }
{
    room.put(b" ");
    room.put_small(frame.0);
    room.put(b" ");
    room.put_small(u32::from(stream.0));
    room.put(b" ");
    put_numbered(room, b'b', buffer.0);
}

/// Writes the line of a buffer that comes back with its picture.
pub fn put_filled(
    room: &mut Room,
    frame: FrameNo,
    stream: StreamIx,
    buffer: BufferId,
    fence: Option<FenceNo>,
    digest: [u8; 32],
)
    requires { length room.old + 200 ≤ ROOM }
    ensures { room.new ≡ room.old ++ line_text (entry_words (Entry.Filled frame stream buffer fence digest)) }
{
    room.put(b"buffer");
    put_place(room, frame, stream, buffer);
    room.put(b" ok - ");
    room.put_hex(&digest);
    room.put(b"\n");
}

/// Writes the line of a buffer that comes back in error.
pub fn put_failed(
    room: &mut Room,
    frame: FrameNo,
    stream: StreamIx,
    buffer: BufferId,
    fence: Option<FenceNo>,
)
    requires { length room.old + 100 ≤ ROOM }
    ensures { room.new ≡ room.old ++ line_text (entry_words (Entry.Failed frame stream buffer fence)) }
{
    room.put(b"buffer");
    put_place(room, frame, stream, buffer);
    room.put(b" error ");
    put_fence(room, fence);
    room.put(b"\n");
}

/// Writes the line of a capture that failed.
pub fn put_error_request(room: &mut Room, frame: FrameNo)
    requires { length room.old + 50 ≤ ROOM }
    ensures { room.new ≡ room.old ++ line_text (entry_words (Entry.ErrorRequest frame)) }
{
    room.put(b"error request ");
    room.put_small(frame.0);
    room.put(b"\n");
}

/// Writes the line of missing metadata.
pub fn put_error_result(room: &mut Room, frame: FrameNo)
    requires { length room.old + 50 ≤ ROOM }
    ensures { room.new ≡ room.old ++ line_text (entry_words (Entry.ErrorResult frame)) }
{
    room.put(b"error result ");
    room.put_small(frame.0);
    room.put(b"\n");
}

/// Writes the line of a buffer that won't be filled.
pub fn put_error_buffer(room: &mut Room, frame: FrameNo, stream: StreamIx)
    requires { length room.old + 50 ≤ ROOM }
    ensures { room.new ≡ room.old ++ line_text (entry_words (Entry.ErrorBuffer frame stream)) }
{
    room.put(b"error buffer ");
    room.put_small(frame.0);
    room.put(b" ");
    room.put_small(u32::from(stream.0));
    room.put(b"\n");
}

/// Writes the line of a release.
pub fn put_release(room: &mut Room, buffer: BufferId, fence: FenceNo)
    requires { length room.old + 50 ≤ ROOM }
    ensures { room.new ≡ room.old ++ line_text (entry_words (Entry.Release buffer fence)) }
{
    room.put(b"release ");
    put_numbered(room, b'b', buffer.0);
    room.put(b" ");
    put_numbered(room, b'f', fence.0);
    room.put(b"\n");
}

/// Writes the line of a signal.
pub fn put_signal(room: &mut Room, fence: FenceNo)
    requires { length room.old + 50 ≤ ROOM }
    ensures { room.new ≡ room.old ++ line_text (entry_words (Entry.Signal fence)) }
{
    room.put(b"signal ");
    put_numbered(room, b'f', fence.0);
    room.put(b"\n");
}

/// Writes the line of a buffer that comes back before it is filled.
pub fn put_early(
    room: &mut Room,
    frame: FrameNo,
    stream: StreamIx,
    buffer: BufferId,
    fence: DeviceFenceNo,
)
    requires { length room.old + 100 ≤ ROOM }
    ensures { room.new ≡ room.old ++ line_text (entry_words (Entry.Early frame stream buffer fence)) }
{
    room.put(b"early");
    put_place(room, frame, stream, buffer);
    room.put(b" ");
    put_numbered(room, b'd', fence.0);
    room.put(b"\n");
}

/// Writes the line of a picture that is filled after its buffer came back.
pub fn put_late(room: &mut Room, fence: DeviceFenceNo, digest: [u8; 32])
    requires { length room.old + 150 ≤ ROOM }
    ensures { room.new ≡ room.old ++ line_text (entry_words (Entry.Late fence digest)) }
{
    room.put(b"filled ");
    put_numbered(room, b'd', fence.0);
    room.put(b" ");
    room.put_hex(&digest);
    room.put(b"\n");
}
