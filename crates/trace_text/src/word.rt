//! Words of a line.

ghost use Rattle.std.specs.Prelude.{◌≡◌, ◌≤◌, ◌+◌, ◌++◌, ◌∷◌, length, decimal};
ghost use Rattle.trace_text.specs.Spelling.{fence_text, item_text};
ghost use Rattle.text_parts.specs.CommandWords.{word_text};

use cam_types::{FenceNo, RequestId, Word};
use io_edge::{ROOM, Room};
use text_parts::word_text;

/// Writes a command's word.
pub fn put_word(room: &mut Room, word: Word)
    requires { length room.old + 10 ≤ ROOM }
    ensures text { room.new ≡ room.old ++ word_text word }
    ensures len { length room.new ≤ length room.old + 10 }
{
    room.put(word_text(word).as_bytes());
}

/// Writes a number behind a letter: `b` of a buffer, `f` of a fence, `d` of one that the device signals, `r` of a request.
pub fn put_numbered(room: &mut Room, letter: u8, number: u32)
    requires { length room.old + 11 ≤ ROOM }
    ensures text { room.new ≡ room.old ++ letter ∷ decimal number }
    ensures len { length room.new ≤ length room.old + 11 }
{
    room.put(&[letter]);
    room.put_small(number);
}

/// Writes a fence, or `-` where there is none.
pub fn put_fence(room: &mut Room, fence: Option<FenceNo>)
    requires { length room.old + 11 ≤ ROOM }
    ensures text { room.new ≡ room.old ++ fence_text fence }
    ensures len { length room.new ≤ length room.old + 11 }
{
    match fence {
        None => room.put(b"-"),
        Some(fence) => put_numbered(room, b'f', fence.0),
    }
}

/// Writes an item of a request.
pub fn put_item(room: &mut Room, request: RequestId, item: u32)
    requires { length room.old + 22 ≤ ROOM }
    ensures text { room.new ≡ room.old ++ item_text request.0 item }
    ensures len { length room.new ≤ length room.old + 22 }
{
    put_numbered(room, b'r', request.0);
    room.put(b".");
    room.put_small(item);
}
