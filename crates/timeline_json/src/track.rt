//! The tracks, and what a slice is called.
ghost use Rattle.std.specs.Prelude.{◌≡◌, IfOk, string_bytes};
ghost use Rattle.timeline_json.specs.Tracks.{call_text, call_thread, fault_text, look_text, named, own, row_track, track_of};

use cam_types::NoMemory;
use std::alloc::Global;
use text_parts::word_text;
use timeline_model::{HalCall, Kind, Look, Seat};

/// A track: a thread of a process, as the trace events call them. Process 1 has what the whole camera does, and each
/// stream has a process of its own, whose threads are its rows.
#[derive(Clone, Copy)]
pub struct Track {
    pub process: u64,
    pub thread: u64,
}

/// The thread of process 1 with the number.
pub fn own(thread: u64) -> Track
    ensures { result ≡ own thread }
{
    Track { process: 1, thread }
}

/// The track of a row of a stream, or one for what has none.
fn row_track(seat: Option<Seat>) -> Track
    ensures { result ≡ row_track seat }
{
    match seat {
        Some(seat) => Track {
            process: 2 + u64::from(seat.lane),
            thread: 1 + u64::from(seat.row),
        },
        None => own(4),
    }
}

fn call_thread(call: HalCall) -> u64
    ensures { result ≡ call_thread call }
{
    match call {
        HalCall::Open => 7,
        HalCall::Init => 8,
        HalCall::Template => 9,
        HalCall::Configure => 10,
        HalCall::Flush => 11,
        HalCall::Close => 12,
    }
}

/// The track of a piece.
pub fn track_of(look: Look, seat: Option<Seat>) -> Track
    ensures { result ≡ track_of look seat }
{
    match look {
        Look::Begin | Look::Call { .. } => own(1),
        Look::Send | Look::Dropped | Look::RequestBegin | Look::RequestOk | Look::RequestError =>
            own(2),
        Look::Shutter { .. } | Look::ErrorDevice => own(3),
        Look::Partial { .. } | Look::ErrorRequest | Look::ErrorResult => own(4),
        Look::Release | Look::Signal => own(5),
        Look::CallBegin { call } | Look::CallOk { call } | Look::CallError { call } => {
            own(call_thread(call))
        }
        _ => row_track(seat),
    }
}

fn call_text(call: HalCall) -> &'static str
    ensures { result.now ≡ call_text call }
{
    match call {
        HalCall::Open => "open",
        HalCall::Init => "initialize",
        HalCall::Template => "template",
        HalCall::Configure => "configure",
        HalCall::Flush => "flush",
        HalCall::Close => "close",
    }
}

/// What a piece of the look is called.
pub fn look_text(look: Look) -> &'static str
    ensures { result.now ≡ look_text look }
{
    match look {
        Look::Begin | Look::CallBegin { .. } => "begin",
        Look::Call { word } => word_text(word),
        Look::Send => "send",
        Look::Dropped => "drop",
        Look::Shutter { .. } => "shutter",
        Look::Partial { .. } => "partial",
        Look::Filled => "ok",
        Look::Failed => "failed",
        Look::ErrorRequest => "error request",
        Look::ErrorResult => "error result",
        Look::ErrorBuffer => "error buffer",
        Look::ErrorDevice => "error device",
        Look::Release => "release",
        Look::Signal => "signal",
        Look::Early => "early",
        Look::Late => "filled",
        Look::CallOk { call } | Look::CallError { call } => call_text(call),
        Look::RequestBegin => "request",
        Look::RequestOk => "accepted",
        Look::RequestError | Look::Refused => "refused",
        Look::Unclear => "unclear",
        Look::Unfinished => "not done",
    }
}

/// A word, with a number behind it where there is one.
pub fn named(alloc: Global, word: &str, number: Option<u32>) -> Result<String, NoMemory>
    ensures { IfOk result (λ text. string_bytes text ≡ named word.now number) }
{
    match number {
        Some(number) => format!(in alloc; "{word} {number}"),
        None => String::from_str(alloc, word),
    }
}

/// What a line that is at fault is called.
pub fn fault_text(kind: Kind) -> &'static str
    ensures { result.now ≡ fault_text kind }
{
    match kind {
        Kind::Trace => "not allowed",
        Kind::Hal => "breach",
    }
}
