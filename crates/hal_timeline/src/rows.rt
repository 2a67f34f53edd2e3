//! The lanes of streams, and the rows of the buffers that the device has.
ghost use Rattle.std.specs.Prelude.{◌≡◌, OnOk, filter, find, not};
ghost use Rattle.std.specs.List.{list_any};
ghost use Rattle.hal_model.specs.Words.{is_number};
ghost use Rattle.hal_timeline.specs.Rows.{all_seated, highest, is_back_in, is_lane_of, is_of_frame, left_between, no_rows, rows_after, seated, seating_of, with_buffer, with_lane};

use cam_types::NoMemory;
use hal_model::{HalEvent, HalTarget, Returned};
use std::alloc::Global;
use timeline_model::{Lane, Seat, take_seat};

/// How many lanes there are at most.
const LANES: usize = 64;

/// The lanes, and the rows of the buffers that aren't back.
#[derive(Drop)]
pub struct Rows {
    pub lanes: Vec<Lane>,
    pub seats: Vec<Seat>,
    /// The highest row so far.
    pub most: u8,
    /// How many buffers had none.
    pub left: u32,
}

fn is_lane_of(lane: &Lane, stream: u32) -> bool
    ensures { result ≡ is_lane_of stream lane.now }
{
    lane.stream == stream
}

/// The lane of a stream.
pub fn lane_of(lanes: &[Lane], stream: u32) -> Option<Lane>
    ensures { result ≡ find (is_lane_of stream) lanes.now }
{
    for lane in lanes {
        if is_lane_of(lane, stream) {
            return Some(*lane);
        }
    }
    None
}

fn has_lane(lanes: &[Lane], stream: u32) -> bool
    ensures { result ≡ list_any (is_lane_of stream) lanes.now }
{
    for lane in lanes {
        if is_lane_of(lane, stream) {
            return true;
        }
    }
    false
}

/// Gives a stream a lane, where it has none and there is one.
fn put_lane(lanes: &mut Vec<Lane>, stream: u32) -> Result<(), NoMemory>
    ensures { OnOk result (lanes.new.items ≡ with_lane stream lanes.old.items) }
{
    let place = lanes.len();
    if has_lane(lanes.as_slice(), stream) {
        Ok(())
    } else if place < LANES {
        lanes.push(Lane {
            place: place as u8,
            stream,
        })?;
        Ok(())
    } else {
        Ok(())
    }
}

/// Gives the buffer of a request a row in the lane, where there is one.
fn put_buffer(
    seats: &mut Vec<Seat>,
    lane: Option<Lane>,
    frame: u32,
    buffer: u32,
    place: u32,
) -> Result<(), NoMemory>
    ensures { OnOk result (seats.new.items ≡ with_buffer lane frame buffer place seats.old.items) }
{
    match lane {
        Some(lane) => take_seat(
            seats,
            Seat {
                frame,
                buffer,
                lane: lane.place,
                row: 0,
                since: place,
            },
        ),
        None => Ok(()),
    }
}

/// The highest row of seats, and of one seen before.
fn highest(most: u8, seats: &[Seat]) -> u8
    ensures { result ≡ highest most seats.now }
{
    let mut highest = most;
    for seat in seats {
        highest = highest.max(seat.row);
    }
    highest
}

pub fn is_of_frame(seat: &Seat, frame: u32) -> bool
    ensures { result ≡ is_of_frame frame seat.now }
{
    seat.frame == frame
}

/// Whether a number is there, and is that.
fn is_number(number: Option<u32>, wanted: u32) -> bool
    ensures { result ≡ is_number wanted number }
{
    match number {
        Some(number) => number == wanted,
        None => false,
    }
}

/// Whether a seat's buffer is among those that come back.
fn is_among(buffers: &[Returned], buffer: u32) -> bool
    ensures { result ≡ list_any (λ r. is_number buffer r.buffer) buffers.now }
{
    buffers.iter().any(|back| is_number(back.buffer, buffer))
}

/// Whether a seat's buffer is among those that a result of the frame brings back.
fn is_back_in(seat: &Seat, frame: u32, buffers: &[Returned]) -> bool
    ensures { result ≡ is_back_in frame buffers.now seat.now }
{
    is_of_frame(seat, frame) && is_among(buffers, seat.buffer)
}

fn is_of_other(seat: &Seat, frame: u32) -> bool
    ensures { result ≡ not (is_of_frame frame seat.now) }
{
    !is_of_frame(seat, frame)
}

fn is_still_out(seat: &Seat, frame: u32, buffers: &[Returned]) -> bool
    ensures { result ≡ not (is_back_in frame buffers.now seat.now) }
{
    !is_back_in(seat, frame, buffers)
}

/// Takes the seats of a request away.
fn leave_frame(seats: &mut Vec<Seat>, frame: u32)
    ensures { seats.new.items ≡ filter (λ seat. not (is_of_frame frame seat)) seats.old.items }
{
    seats.retain(|seat| is_of_other(seat, frame));
}

/// Takes the seats of buffers away that come back.
fn leave_buffers(seats: &mut Vec<Seat>, frame: u32, buffers: &[Returned])
    ensures { seats.new.items ≡ filter (λ seat. not (is_back_in frame buffers.now seat)) seats.old.items }
{
    seats.retain(|seat| is_still_out(seat, frame, buffers));
}

/// How many buffers were left out.
fn left_after(before: usize, after: usize, left: u32) -> u32
    ensures { result ≡ left_between before after left }
{
    if before == after {
        left.saturating_add(1)
    } else {
        left
    }
}

impl Rows {
    /// None.
    pub fn new(alloc: Global) -> Rows
        ensures { seating_of result ≡ no_rows }
    {
        Rows {
            lanes: Vec::new(alloc),
            seats: Vec::new(alloc),
            most: 0,
            left: 0,
        }
    }

    /// Gives the buffer of a request that begins at the place a row, or counts it as left out.
    fn seat(&mut self, frame: u32, place: u32, target: &HalTarget) -> Result<(), NoMemory>
        ensures { OnOk result (seating_of self.new ≡ seated frame place target.now (seating_of self.old)) }
    {
        put_lane(&mut self.lanes, target.stream)?;
        let lane = lane_of(self.lanes.as_slice(), target.stream);
        let before = self.seats.len();
        put_buffer(&mut self.seats, lane, frame, target.buffer, place)?;
        self.most = highest(self.most, self.seats.as_slice());
        self.left = left_after(before, self.seats.len(), self.left);
        Ok(())
    }

    /// The same of all buffers of a request.
    fn seat_all(&mut self, frame: u32, place: u32, targets: &[HalTarget]) -> Result<(), NoMemory>
        ensures { OnOk result (seating_of self.new ≡ all_seated frame place targets.now (seating_of self.old)) }
    {
        for target in targets {
            self.seat(frame, place, target)?;
        }
        Ok(())
    }

    /// Notes an event at the place.
    pub fn note(&mut self, event: &HalEvent, place: u32) -> Result<(), NoMemory>
        ensures { OnOk result (seating_of self.new ≡ rows_after event.now place (seating_of self.old)) }
    {
        match event {
            HalEvent::RequestBegin { frame, targets, .. } => {
                self.seat_all(*frame, place, targets.as_slice())
            }
            HalEvent::RequestError { frame, .. } => {
                leave_frame(&mut self.seats, *frame);
                Ok(())
            }
            HalEvent::Results { frame, buffers, .. } => {
                leave_buffers(&mut self.seats, *frame, buffers.as_slice());
                Ok(())
            }
            HalEvent::OpenOk => {
                self.seats.clear();
                Ok(())
            }
            _ => Ok(()),
        }
    }
}
