//! The mark of an event: what it looks like, where what it ends began, and in which row it stands.
ghost use Rattle.std.specs.Prelude.{◌≡◌, find};
ghost use Rattle.hal_model.specs.Rules.{frame_in};
ghost use Rattle.hal_timeline.specs.Pieces.{asked_at, call_since, is_seat_in, look_in, own_piece, part_look, seat_in, seat_in_lane, since_in, stream_seat};
ghost use Rattle.hal_timeline.specs.Rows.{seating_of};
ghost use Rattle.hal_timeline.specs.Walks.{standing_of};

use crate::calls::{Asked, ended_by};
use crate::rows::{Rows, lane_of};
use crate::walk::Walk;
use hal_model::{HalEvent, Pack};
use hal_table::frame_in;
use timeline_model::{HalCall, Lane, Look, Piece, Seat};

/// What a result looks like: without metadata it has its buffers alone.
fn part_look(number: u32, pack: Pack) -> Option<Look>
    ensures { result ≡ part_look number pack }
{
    match pack {
        Pack::Absent => None,
        _ => Some(Look::Partial { number }),
    }
}

/// What the event itself looks like.
pub fn look_in(event: &HalEvent) -> Option<Look>
    ensures { result ≡ look_in event.now }
{
    match event {
        HalEvent::OpenBegin => Some(begun(HalCall::Open)),
        HalEvent::OpenOk => Some(done(HalCall::Open)),
        HalEvent::OpenError { .. } => Some(failed(HalCall::Open)),
        HalEvent::InitBegin => Some(begun(HalCall::Init)),
        HalEvent::InitOk => Some(done(HalCall::Init)),
        HalEvent::InitError { .. } => Some(failed(HalCall::Init)),
        HalEvent::TemplateBegin { .. } => Some(begun(HalCall::Template)),
        HalEvent::TemplateOk { .. } => Some(done(HalCall::Template)),
        HalEvent::TemplateNull { .. } => Some(failed(HalCall::Template)),
        HalEvent::ConfigureBegin { .. } => Some(begun(HalCall::Configure)),
        HalEvent::ConfigureOk { .. } => Some(done(HalCall::Configure)),
        HalEvent::ConfigureError { .. } => Some(failed(HalCall::Configure)),
        HalEvent::RequestBegin { .. } => Some(Look::RequestBegin),
        HalEvent::RequestOk { .. } => Some(Look::RequestOk),
        HalEvent::RequestError { .. } => Some(Look::RequestError),
        HalEvent::Shutter { time, .. } => Some(Look::Shutter { time: *time }),
        HalEvent::ErrorRequest { .. } => Some(Look::ErrorRequest),
        HalEvent::ErrorResult { .. } => Some(Look::ErrorResult),
        HalEvent::ErrorBuffer { .. } => Some(Look::ErrorBuffer),
        HalEvent::ErrorDevice => Some(Look::ErrorDevice),
        HalEvent::Results { partial, pack, .. } => part_look(*partial, *pack),
        HalEvent::FlushBegin => Some(begun(HalCall::Flush)),
        HalEvent::FlushOk => Some(done(HalCall::Flush)),
        HalEvent::FlushError { .. } => Some(failed(HalCall::Flush)),
        HalEvent::CloseBegin => Some(begun(HalCall::Close)),
        HalEvent::CloseEnd => Some(done(HalCall::Close)),
    }
}

fn begun(call: HalCall) -> Look
    ensures { result ≡ Look.CallBegin call }
{
    Look::CallBegin { call }
}

fn done(call: HalCall) -> Look
    ensures { result ≡ Look.CallOk call }
{
    Look::CallOk { call }
}

fn failed(call: HalCall) -> Look
    ensures { result ≡ Look.CallError call }
{
    Look::CallError { call }
}

/// Where the request began, where it is the one in call.
fn asked_at(frame: u32, asked: Option<Asked>) -> Option<u32>
    ensures { result ≡ asked_at frame asked }
{
    match asked {
        Some(asked) => {
            if asked.frame == frame {
                Some(asked.place)
            } else {
                None
            }
        }
        None => None,
    }
}

/// Where the call of the kind began.
fn call_since(call: Option<HalCall>, walk: &Walk) -> Option<u32>
    ensures { result ≡ call_since call (standing_of walk.now) }
{
    match call {
        Some(call) => walk.calls.begun_at(call),
        None => None,
    }
}

/// Where the call began that an event ends.
fn since_in(event: &HalEvent, walk: &Walk) -> Option<u32>
    ensures { result ≡ since_in event.now (standing_of walk.now) }
{
    match event {
        HalEvent::RequestOk { frame } => asked_at(*frame, walk.asked),
        HalEvent::RequestError { frame, .. } => asked_at(*frame, walk.asked),
        _ => call_since(ended_by(event), walk),
    }
}

fn is_seat_in(seat: &Seat, frame: u32, lane: Lane) -> bool
    ensures { result ≡ is_seat_in frame lane seat.now }
{
    seat.frame == frame && seat.lane == lane.place
}

/// The seat of a frame in a lane.
fn find_in_lane(seats: &[Seat], frame: u32, lane: Lane) -> Option<Seat>
    ensures { result ≡ find (is_seat_in frame lane) seats.now }
{
    for seat in seats {
        if is_seat_in(seat, frame, lane) {
            return Some(*seat);
        }
    }
    None
}

fn seat_in_lane(seats: &[Seat], frame: u32, lane: Option<Lane>) -> Option<Seat>
    ensures { result ≡ seat_in_lane frame lane seats.now }
{
    match lane {
        Some(lane) => find_in_lane(seats, frame, lane),
        None => None,
    }
}

/// The seat of a frame's buffer for a stream.
fn stream_seat(rows: &Rows, frame: u32, stream: Option<u32>) -> Option<Seat>
    ensures { result ≡ stream_seat frame stream (seating_of rows.now) }
{
    match stream {
        Some(stream) => {
            let lane = lane_of(rows.lanes.as_slice(), stream);
            seat_in_lane(rows.seats.as_slice(), frame, lane)
        }
        None => None,
    }
}

/// The row of the buffer of which an error tells.
fn seat_in(event: &HalEvent, rows: &Rows) -> Option<Seat>
    ensures { result ≡ seat_in event.now (seating_of rows.now) }
{
    match event {
        HalEvent::ErrorBuffer { frame, stream } => stream_seat(rows, *frame, *stream),
        _ => None,
    }
}

/// The event's own mark.
pub fn own_piece(event: &HalEvent, walk: &Walk, look: Look) -> Piece
    ensures { result ≡ own_piece event.now (standing_of walk.now) look }
{
    Piece {
        look,
        since: since_in(event, walk),
        frame: frame_in(event),
        seat: seat_in(event, &walk.rows),
    }
}
