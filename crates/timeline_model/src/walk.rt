//! What stands after each entry of a legal trace, carried on from entry to entry.
ghost use Rattle.std.specs.Prelude.{◌≡◌, ◌+◌, ◌-◌, ◌*◌, ◌<◌, ◌≤◌, ◌^◌, ◌∷◌, ◌||◌, [], List, OnOk, length, max, option_to_list, reverse};
ghost use Rattle.cam_types.specs.Four.{four_list};
ghost use Rattle.cam_types.specs.declared.script.Script.{Script as SomeScript};
ghost use Rattle.trace_model.specs.Calls.{begun};
ghost use Rattle.trace_model.specs.Legal.{IsLegal};
ghost use Rattle.trace_model.specs.Stopping.{has_failed, is_stopping, stops_by};
ghost use Rattle.trace_model.specs.declared.entry.Entry.{Entry as SomeEntry};
ghost use Rattle.timeline_model.specs.Drawings.{begun_at, begun_anew, configured, seats_after, with_sent, with_targets, without_target};
ghost use Rattle.timeline_model.specs.Walks.{Fits, queued_by};

use crate::past::{Target, target_in};
use crate::{Seat, keep_other, seat_of, take_seat};
use cam_types::{Four, FrameNo, Made, NoMemory, Reply, Script};
use judge_entries::command::{command_at, queued_items};
use judge_entries::entry::is_stop_word;
use std::alloc::Global;
use trace_model::{Entry, Sent};

/// What stands after the entries so far.
#[derive(Drop)]
pub struct Walk {
    /// The rows of the buffers that the device isn't done with.
    pub seats: Vec<Seat>,
    /// How many items wait.
    pub queued: u64,
    /// The place of the begin that has no call yet.
    pub begun: Option<u32>,
    /// It begins a flush or a disconnect.
    pub stops: bool,
    /// The device failed.
    pub failed: bool,
    /// The most streams that were configured.
    pub streams: u32,
}

/// How many items wait after an entry.
fn queued_after(script: &Script, entry: &Entry, queued: u64) -> u64
    requires { queued + 2 ^ 32 ≤ 2 ^ 64 }
    ensures value { result ≡ queued_by script.now entry.now queued }
    ensures more { result ≤ queued + 4294967295 }
{
    match entry {
        Entry::Call {
            index,
            reply: Reply::Submitted(_),
            ..
        } => queued + queued_items(command_at(script, *index)).len() as u64,
        Entry::Send { .. } => queued.saturating_sub(1),
        Entry::Dropped { .. } => queued.saturating_sub(1),
        _ => queued,
    }
}

/// The place of the begin that has no call yet, after an entry at the place.
fn begun_after(entry: &Entry, place: u32, begun: Option<u32>) -> Option<u32>
    ensures { (past : List SomeEntry) → length past ≡ place → begun ≡ begun_at past →
        result ≡ begun_at (entry.now ∷ past) }
{
    match entry {
        Entry::Begin { .. } => Some(place),
        Entry::Call { .. } => None,
        _ => begun,
    }
}

/// Whether a flush or a disconnect has begun and isn't answered, after an entry.
fn stops_after(entry: &Entry, stops: bool) -> bool
    ensures { (past : List SomeEntry) → stops ≡ stops_by (begun past) →
        result ≡ stops_by (begun (entry.now ∷ past)) }
{
    match entry {
        Entry::Begin { word } => is_stop_word(*word),
        Entry::Call { .. } => false,
        _ => stops,
    }
}

/// Whether the device failed, after an entry.
fn failed_after(entry: &Entry, failed: bool) -> bool
    ensures { (past : List SomeEntry) → failed ≡ has_failed past → result ≡ has_failed (entry.now ∷ past) }
{
    match entry {
        Entry::ErrorDevice => true,
        _ => failed,
    }
}

fn one_if(made: Option<Made>) -> u32
    ensures { result ≡ length (option_to_list made) }
{
    match made {
        Some(_) => 1,
        None => 0,
    }
}

/// How many streams there are.
fn count_of(made: Four<Made>) -> u32
    ensures { result ≡ length (four_list made) }
{
    one_if(made.a) + one_if(made.b) + one_if(made.c) + one_if(made.d)
}

/// How many streams an entry configures.
fn configured(entry: &Entry) -> u32
    ensures { result ≡ configured entry.now }
{
    match entry {
        Entry::Call {
            reply: Reply::Configured(made),
            ..
        } => count_of(*made),
        _ => 0,
    }
}

/// The most streams that were configured, after an entry.
fn streams_after(entry: &Entry, streams: u32) -> u32
    ensures { result ≡ max streams (configured entry.now) }
{
    streams.max(configured(entry))
}

/// Gives a target that is sent its row.
fn take_sent(
    seats: &mut Vec<Seat>,
    frame: FrameNo,
    place: u32,
    sent: Option<Sent>,
) -> Result<(), NoMemory>
    ensures { OnOk result (seats.new.items ≡ with_sent frame.0 place sent seats.old.items) }
{
    match sent {
        Some(sent) => take_seat(
            seats,
            Seat {
                frame: frame.0,
                buffer: u32::from(sent.stream.0),
                lane: sent.stream.0,
                row: 0,
                since: place,
            },
        ),
        None => Ok(()),
    }
}

/// Gives each target of a frame its row.
fn take_targets(
    seats: &mut Vec<Seat>,
    frame: FrameNo,
    place: u32,
    targets: Four<Sent>,
) -> Result<(), NoMemory>
    ensures { OnOk result (seats.new.items ≡ with_targets frame.0 place targets seats.old.items) }
{
    take_sent(seats, frame, place, targets.a)?;
    take_sent(seats, frame, place, targets.b)?;
    take_sent(seats, frame, place, targets.c)?;
    take_sent(seats, frame, place, targets.d)
}

/// Takes the seat of a target away, where there is one.
fn leave(seats: &mut Vec<Seat>, target: Option<Target>)
    ensures { seats.new.items ≡ without_target target seats.old.items }
{
    if let Some(target) = target {
        keep_other(seats, target.frame.0, u32::from(target.stream.0));
    }
}

/// Begins the bar of a seat anew, in the same row.
fn begin_anew(seats: &mut Vec<Seat>, place: u32, seat: Option<Seat>) -> Result<(), NoMemory>
    ensures { OnOk result (seats.new.items ≡ begun_anew place seat seats.old.items) }
{
    match seat {
        Some(seat) => {
            keep_other(seats, seat.frame, seat.buffer);
            seats.push(Seat {
                since: place,
                ..seat
            })?;
            Ok(())
        }
        None => Ok(()),
    }
}

/// Notes in which rows bars stand after an entry.
fn note_seats(seats: &mut Vec<Seat>, entries: &[Entry], entry: &Entry) -> Result<(), NoMemory>
    requires { length entries.now < 4294967295 }
    ensures { OnOk result (seats.new.items ≡ seats_after entry.now (reverse entries.now) seats.old.items) }
{
    let place = entries.len() as u32;
    match *entry {
        Entry::Send { frame, targets, .. } => take_targets(seats, frame, place, targets),
        Entry::Filled { .. } => {
            leave(seats, target_in(entries, entry));
            Ok(())
        }
        Entry::Failed { .. } => {
            leave(seats, target_in(entries, entry));
            Ok(())
        }
        Entry::Early { frame, stream, .. } => {
            let seat = seat_of(seats.as_slice(), frame.0, u32::from(stream.0));
            begin_anew(seats, place, seat)
        }
        Entry::Late { .. } => {
            leave(seats, target_in(entries, entry));
            Ok(())
        }
        _ => Ok(()),
    }
}

impl Walk {
    /// What stands before the first entry.
    pub fn new(alloc: Global) -> Walk
        ensures fits { (script : SomeScript) → Fits script [] result }
        ensures queue { result.queued ≡ 0 }
    {
        Walk {
            seats: Vec::new(alloc),
            queued: 0,
            begun: None,
            stops: false,
            failed: false,
            streams: 0,
        }
    }

    /// A flush, a disconnect or a failure of the device stops frames.
    pub fn is_stopping(&self) -> bool
        ensures { result ≡ (self.now.stops || self.now.failed) }
    {
        self.stops || self.failed
    }

    /// Notes what stands after an entry behind the entries.
    pub fn note(
        &mut self,
        script: &Script,
        entries: &[Entry],
        entry: &Entry,
    ) -> Result<(), NoMemory>
        requires legal { IsLegal script.now (entry.now ∷ reverse entries.now) }
        requires fits { Fits script.now (reverse entries.now) self.old }
        requires few { length entries.now < 4294967295 }
        requires queue { self.old.queued ≤ length entries.now * 4294967295 }
        ensures fits { OnOk result (Fits script.now (entry.now ∷ reverse entries.now) self.new) }
        ensures queue { OnOk result (self.new.queued ≤ (length entries.now + 1) * 4294967295) }
    {
        note_seats(&mut self.seats, entries, entry)?;
        self.queued = queued_after(script, entry, self.queued);
        self.begun = begun_after(entry, entries.len() as u32, self.begun);
        self.stops = stops_after(entry, self.stops);
        self.failed = failed_after(entry, self.failed);
        self.streams = streams_after(entry, self.streams);
        Ok(())
    }
}
