//! How much of each a trace has, in one line.

ghost use Rattle.std.specs.Prelude.{◌≡◌, ◌≤◌, ◌+◌, ◌++◌, ◌∷◌, count_by, length, decimal};
ghost use Rattle.trace_model.specs.Summary.{summary_of};
ghost use Rattle.trace_text.specs.Summary.{is_of, summary_line};

use io_edge::{ROOM, Room};
use trace_model::Entry;

/// The number of the last partial result of a frame.
const LAST_PART: u8 = 3;

/// What is counted.
#[derive(Clone, Copy)]
pub enum Kind {
    Call,
    Send,
    Drop,
    LastPart,
    RequestError,
    ResultError,
    FilledBuffer,
    FailedBuffer,
}

#[tactic(auto, unfolding(crate::specs::Summary::is_of))]
fn is_of(kind: Kind, entry: &Entry) -> bool
    ensures { result ≡ is_of kind entry.now }
{
    match kind {
        Kind::Call => matches!(entry, Entry::Call { .. }),
        Kind::Send => matches!(entry, Entry::Send { .. }),
        Kind::Drop => matches!(entry, Entry::Dropped { .. }),
        Kind::LastPart => matches!(entry, Entry::Partial { number, .. } if *number == LAST_PART),
        Kind::RequestError => matches!(entry, Entry::ErrorRequest { .. }),
        Kind::ResultError => matches!(entry, Entry::ErrorResult { .. }),
        Kind::FilledBuffer => matches!(entry, Entry::Filled { .. }),
        Kind::FailedBuffer => matches!(entry, Entry::Failed { .. }),
    }
}

fn count_of(kind: Kind, trace: &[Entry]) -> usize
    ensures { result ≡ count_by (is_of kind) trace.now }
{
    trace.iter().filter(|entry| is_of(kind, entry)).count()
}

/// Writes a label and a count.
fn put_count(room: &mut Room, label: &[u8], count: usize)
    requires { length room.old + length label.now + 20 ≤ ROOM }
    ensures text { room.new ≡ (room.old ++ label.now) ++ decimal count }
    ensures len { length room.new ≤ length room.old + length label.now + 20 }
{
    room.put(label);
    room.put_large(count as u64);
}

/// Writes the summary of a trace. It goes over the trace once for each kind.
pub fn put_summary(room: &mut Room, trace: &[Entry])
    requires { length room.old + 400 ≤ ROOM }
    ensures { room.new ≡ room.old ++ summary_line (summary_of trace.now) }
{
    put_count(room, b"commands ", count_of(Kind::Call, trace));
    put_count(room, b" frames ", count_of(Kind::Send, trace));
    put_count(room, b" dropped ", count_of(Kind::Drop, trace));
    put_count(room, b" results ", count_of(Kind::LastPart, trace));
    put_count(
        room,
        b" request-errors ",
        count_of(Kind::RequestError, trace),
    );
    put_count(room, b" result-errors ", count_of(Kind::ResultError, trace));
    put_count(room, b" buffers-ok ", count_of(Kind::FilledBuffer, trace));
    put_count(
        room,
        b" buffers-error ",
        count_of(Kind::FailedBuffer, trace),
    );
    put_count(room, b" entries ", trace.len());
    room.put(b"\n");
}
