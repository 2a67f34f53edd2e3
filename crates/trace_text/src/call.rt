//! The lines of the client's commands.

ghost use Rattle.std.specs.Prelude.{◌≡◌, ◌≤◌, ◌+◌, ◌++◌, length, IsTrue, map, option_to_list, decimal};
ghost use Rattle.cam_types.specs.Four.{four_list};
ghost use Rattle.trace_model.specs.Printable.{is_filled, reply_fits};
ghost use Rattle.text_parts.specs.Lines.{line_text};
ghost use Rattle.trace_text.specs.Spelling.{behind_spaces, made_words, reply_words, entry_words};

use crate::word::{put_numbered, put_word};
use cam_types::{Four, Made, Reply, Word};
use io_edge::{ROOM, Room};
use trace_model::Entry;

/// Writes the buffers of a stream behind a space, if there is the stream.
fn put_made(room: &mut Room, stream: u8, made: Option<Made>)
    requires { length room.old + 35 ≤ ROOM }
    ensures text { room.new ≡ room.old ++ behind_spaces (made_words stream (option_to_list made)) }
    ensures len { length room.new ≤ length room.old + 35 }
{
    if let Some(made) = made {
        room.put(b" ");
        room.put_small(u32::from(stream));
        room.put(b":");
        put_numbered(room, b'b', made.first.0);
        room.put(b"+");
        room.put_small(made.count);
    }
}

/// Writes the buffers of each stream, in order.
fn put_made_streams(room: &mut Room, made: Four<Made>)
    requires filled { IsTrue (is_filled made) }
    requires room { length room.old + 140 ≤ ROOM }
    ensures text { room.new ≡ room.old ++ behind_spaces (made_words 0 (four_list made)) }
    ensures len { length room.new ≤ length room.old + 140 }
{
    put_made(room, 0, made.a);
    put_made(room, 1, made.b);
    put_made(room, 2, made.c);
    put_made(room, 3, made.d);
}

/// Writes a number behind a space, if there is one.
fn put_more(room: &mut Room, number: Option<u32>)
    requires { length room.old + 11 ≤ ROOM }
    ensures text { room.new ≡ room.old ++ behind_spaces (map decimal (option_to_list number)) }
    ensures len { length room.new ≤ length room.old + 11 }
{
    if let Some(number) = number {
        room.put(b" ");
        room.put_small(number);
    }
}

/// Writes the numbers of a refusal.
fn put_refusal(room: &mut Room, code: u8, first: Option<u32>, second: Option<u32>)
    requires { length room.old + 50 ≤ ROOM }
    ensures text { room.new ≡ room.old ++ behind_spaces (reply_words (Reply.Refused code first second)) }
    ensures len { length room.new ≤ length room.old + 50 }
{
    room.put(b" refused ");
    room.put_small(u32::from(code));
    put_more(room, first);
    put_more(room, second);
}

/// Writes a reply.
fn put_reply(room: &mut Room, word: Word, reply: Reply)
    requires fits { IsTrue (reply_fits word reply) }
    requires room { length room.old + 150 ≤ ROOM }
    ensures text { room.new ≡ room.old ++ behind_spaces (reply_words reply) }
    ensures len { length room.new ≤ length room.old + 150 }
{
    match reply {
        Reply::Ok => room.put(b" ok"),
        Reply::Submitted(request) => {
            room.put(b" ok ");
            put_numbered(room, b'r', request.0);
        }
        Reply::Configured(made) => {
            room.put(b" ok");
            put_made_streams(room, made);
        }
        Reply::Refused {
            code,
            first,
            second,
        } => put_refusal(room, code, first, second),
    }
}

/// Writes the line of a command that is answered.
pub fn put_call(room: &mut Room, index: u32, word: Word, reply: Reply)
    requires fits { IsTrue (reply_fits word reply) }
    requires room { length room.old + 200 ≤ ROOM }
    ensures { room.new ≡ room.old ++ line_text (entry_words (Entry.Call index word reply)) }
{
    room.put(b"call ");
    room.put_small(index);
    room.put(b" ");
    put_word(room, word);
    room.put(b" =");
    put_reply(room, word, reply);
    room.put(b"\n");
}

/// Writes the line of a command that begins.
pub fn put_begin(room: &mut Room, word: Word)
    requires { length room.old + 20 ≤ ROOM }
    ensures { room.new ≡ room.old ++ line_text (entry_words (Entry.Begin word)) }
{
    room.put(b"begin ");
    put_word(room, word);
    room.put(b"\n");
}
