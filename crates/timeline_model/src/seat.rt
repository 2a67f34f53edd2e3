//! The rows of a stream's lane: each buffer that is out has one of its own, as far as there are rows.
ghost use Rattle.std.specs.Prelude.{◌≡◌, ◌<◌, OnOk, filter, find, not};
ghost use Rattle.std.specs.List.{list_any};
ghost use Rattle.timeline_model.specs.Seats.{free_row, is_free, is_seat_of, takes_row, with_row, with_seat, without};

use cam_types::NoMemory;

/// The row in which the bar of a buffer stands while it is out.
#[derive(Clone, Copy)]
pub struct Seat {
    pub frame: u32,
    /// By which number the frame's buffers are told apart: in a trace their stream's, in a hal log their own.
    pub buffer: u32,
    /// The place of its stream's lane.
    pub lane: u8,
    /// The row of the lane, from 0 on.
    pub row: u8,
    /// The place where the bar begins.
    pub since: u32,
}

/// How many rows a lane has at most.
const ROWS: u8 = 16;

/// How many bars stand at a time at most.
const SEATS: usize = 64;

fn takes_row(seat: &Seat, lane: u8, row: u8) -> bool
    ensures { result ≡ takes_row lane row seat.now }
{
    seat.lane == lane && seat.row == row
}

fn is_taken(seats: &[Seat], lane: u8, row: u8) -> bool
    ensures { result ≡ list_any (takes_row lane row) seats.now }
{
    seats.iter().any(|seat| takes_row(seat, lane, row))
}

fn is_free(seats: &[Seat], lane: u8, row: u8) -> bool
    ensures { result ≡ is_free lane seats.now row }
{
    !is_taken(seats, lane, row)
}

/// The least row of the lane in which no bar stands.
fn free_row(seats: &[Seat], lane: u8) -> Option<u8>
    ensures { result ≡ free_row lane seats.now }
{
    for row in 0..ROWS {
        if is_free(seats, lane, row) {
            return Some(row);
        }
    }
    None
}

/// Gives a buffer the row, where there is one.
fn put_seat(seats: &mut Vec<Seat>, seat: Seat, row: Option<u8>) -> Result<(), NoMemory>
    ensures { OnOk result (seats.new.items ≡ with_row seat row seats.old.items) }
{
    match row {
        Some(row) => {
            seats.push(Seat { row, ..seat })?;
            Ok(())
        }
        None => Ok(()),
    }
}

/// Gives a buffer the least free row of its lane. Where none is free, or 64 bars stand, it has none.
pub fn take_seat(seats: &mut Vec<Seat>, seat: Seat) -> Result<(), NoMemory>
    ensures { OnOk result (seats.new.items ≡ with_seat seat seats.old.items) }
{
    if seats.len() < SEATS {
        let row = free_row(seats.as_slice(), seat.lane);
        put_seat(seats, seat, row)
    } else {
        Ok(())
    }
}

fn is_seat_of(seat: &Seat, frame: u32, buffer: u32) -> bool
    ensures { result ≡ is_seat_of frame buffer seat.now }
{
    seat.frame == frame && seat.buffer == buffer
}

fn is_other(seat: &Seat, frame: u32, buffer: u32) -> bool
    ensures { result ≡ not (is_seat_of frame buffer seat.now) }
{
    !is_seat_of(seat, frame, buffer)
}

/// Takes the seat of a frame's buffer away.
pub fn keep_other(seats: &mut Vec<Seat>, frame: u32, buffer: u32)
    ensures { seats.new.items ≡ without frame buffer seats.old.items }
{
    seats.retain(|seat| is_other(seat, frame, buffer));
}

/// The seat of a frame's buffer.
pub fn seat_of(seats: &[Seat], frame: u32, buffer: u32) -> Option<Seat>
    ensures { result ≡ find (is_seat_of frame buffer) seats.now }
{
    for seat in seats {
        if is_seat_of(seat, frame, buffer) {
            return Some(*seat);
        }
    }
    None
}
