//! What is drawn of an event: its own mark, and the bars that end with it.
ghost use Rattle.std.specs.Prelude.{◌≡◌, ◌++◌, IfOk, OnOk, filter, map};
ghost use Rattle.std.specs.Option.{option_map};
ghost use Rattle.hal_timeline.specs.Pieces.{back_piece, back_piece_in, buffer_seat, ended_pieces, gone_piece, own_pieces, pieces_of, status_look};
ghost use Rattle.hal_timeline.specs.Rows.{is_of_frame};
ghost use Rattle.hal_timeline.specs.Walks.{standing_of};
ghost use Rattle.timeline_model.specs.declared.seat.Seat.{Seat as SomeSeat};

use crate::mark::{look_in, own_piece};
use crate::rows::is_of_frame;
use crate::walk::Walk;
use cam_types::NoMemory;
use hal_model::{HalEvent, Returned, Status};
use std::alloc::Global;
use timeline_model::{Look, Piece, Seat, Series, seat_of};

fn status_look(status: Status) -> Look
    ensures { result ≡ status_look status }
{
    match status {
        Status::Filled => Look::Filled,
        Status::Failed => Look::Failed,
        Status::Unknown => Look::Unclear,
    }
}

/// The seat of a buffer of the frame.
fn buffer_seat(frame: u32, buffer: Option<u32>, seats: &[Seat]) -> Option<Seat>
    ensures { result ≡ buffer_seat frame buffer seats.now }
{
    match buffer {
        Some(buffer) => seat_of(seats, frame, buffer),
        None => None,
    }
}

fn since_of(seat: Option<Seat>) -> Option<u32>
    ensures { result ≡ option_map (λ (x : SomeSeat). x.since) seat }
{
    match seat {
        Some(seat) => Some(seat.since),
        None => None,
    }
}

/// A buffer that comes back, with the bar from its request on.
fn back_piece(frame: u32, seats: &[Seat], back: &Returned) -> Piece
    ensures { result ≡ back_piece frame seats.now back.now }
{
    let seat = buffer_seat(frame, back.buffer, seats);
    Piece {
        look: status_look(back.status),
        since: since_of(seat),
        frame: Some(frame),
        seat,
    }
}

/// A bar that ends without its buffer.
pub fn gone_piece(look: Look, seat: &Seat) -> Piece
    ensures { result ≡ gone_piece look seat.now }
{
    Piece {
        look,
        since: Some(seat.since),
        frame: Some(seat.frame),
        seat: Some(*seat),
    }
}

/// Adds the buffers that come back.
fn put_back(
    pieces: &mut Series<Piece>,
    frame: u32,
    seats: &[Seat],
    buffers: &[Returned],
) -> Result<(), NoMemory>
    ensures { OnOk result (pieces.new ≡ pieces.old ++ map (back_piece frame seats.now) buffers.now) }
{
    for back in buffers {
        pieces.push(back_piece(frame, seats, back))?;
    }
    Ok(())
}

/// Adds the bars of a request that was refused.
fn put_refused(pieces: &mut Series<Piece>, frame: u32, seats: &[Seat]) -> Result<(), NoMemory>
    ensures { OnOk result (pieces.new
        ≡ pieces.old ++ map (gone_piece Look.Refused) (filter (is_of_frame frame) seats.now)) }
{
    for seat in seats {
        if is_of_frame(seat, frame) {
            pieces.push(gone_piece(Look::Refused, seat))?;
        }
    }
    Ok(())
}

/// Adds the bars of seats, which end without their buffers.
pub fn put_unfinished(pieces: &mut Series<Piece>, seats: &[Seat]) -> Result<(), NoMemory>
    ensures { OnOk result (pieces.new ≡ pieces.old ++ map (gone_piece Look.Unfinished) seats.now) }
{
    for seat in seats {
        pieces.push(gone_piece(Look::Unfinished, seat))?;
    }
    Ok(())
}

/// Adds the bars that end with an event.
fn put_ended(pieces: &mut Series<Piece>, event: &HalEvent, seats: &[Seat]) -> Result<(), NoMemory>
    ensures { OnOk result (pieces.new ≡ pieces.old ++ ended_pieces event.now seats.now) }
{
    match event {
        HalEvent::Results { frame, buffers, .. } => {
            put_back(pieces, *frame, seats, buffers.as_slice())
        }
        HalEvent::RequestError { frame, .. } => put_refused(pieces, *frame, seats),
        HalEvent::OpenOk => put_unfinished(pieces, seats),
        _ => Ok(()),
    }
}

/// Adds the event's own mark, where it has one.
fn put_own(
    pieces: &mut Series<Piece>,
    event: &HalEvent,
    walk: &Walk,
    look: Option<Look>,
) -> Result<(), NoMemory>
    ensures { OnOk result (pieces.new ≡ pieces.old ++ own_pieces event.now (standing_of walk.now) look) }
{
    match look {
        Some(look) => pieces.push(own_piece(event, walk, look)),
        None => Ok(()),
    }
}

/// All that is drawn of an event, by what stands before it.
pub fn pieces_of(alloc: Global, event: &HalEvent, walk: &Walk) -> Result<Series<Piece>, NoMemory>
    ensures { IfOk result (λ pieces. pieces ≡ pieces_of event.now (standing_of walk.now)) }
{
    let mut pieces = Series::new(alloc);
    put_own(&mut pieces, event, walk, look_in(event))?;
    put_ended(&mut pieces, event, walk.rows.seats.as_slice())?;
    Ok(pieces)
}
