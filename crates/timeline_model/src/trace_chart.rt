//! A timeline as a chart: the looks of its entries, their lines, and what is drawn of each.
ghost use Rattle.std.specs.Prelude.{◌≡◌, ◌++◌, ◌∷◌, [], IfOk, IfSome, IsTrue, OnOk, map};
ghost use Rattle.std.specs.List.{list_all};
ghost use Rattle.std.specs.Option.{option_map};
ghost use Rattle.trace_model.specs.Printable.{is_printable};
ghost use Rattle.timeline_model.specs.TraceLines.{shown_line};
ghost use Rattle.timeline_model.specs.Charts.{chart_of, counts_at, fault_of, frame_in, group_of, lane_of, lanes_of, look_of, piece_of, unfinished_of};

use crate::drawn::{Drawn, Timeline};
use crate::trace_line::shown_line;
use crate::{Chart, Group, Kind, Lane, Look, Piece, Seat, Series};
use cam_types::NoMemory;
use std::alloc::Global;
use trace_model::Entry;
use trace_text::Printer;

/// What an entry looks like.
fn look_of(entry: Entry) -> Look
    ensures { result ≡ look_of entry }
{
    match entry {
        Entry::Begin { .. } => Look::Begin,
        Entry::Call { word, .. } => Look::Call { word },
        Entry::Send { .. } => Look::Send,
        Entry::Dropped { .. } => Look::Dropped,
        Entry::Shutter { time, .. } => Look::Shutter { time },
        Entry::Partial { number, .. } => Look::Partial {
            number: u32::from(number),
        },
        Entry::Filled { .. } => Look::Filled,
        Entry::Failed { .. } => Look::Failed,
        Entry::ErrorRequest { .. } => Look::ErrorRequest,
        Entry::ErrorResult { .. } => Look::ErrorResult,
        Entry::ErrorBuffer { .. } => Look::ErrorBuffer,
        Entry::ErrorDevice => Look::ErrorDevice,
        Entry::Release { .. } => Look::Release,
        Entry::Signal { .. } => Look::Signal,
        Entry::Early { .. } => Look::Early,
        Entry::Late { .. } => Look::Late,
    }
}

/// The frame of a seat.
fn frame_of(seat: Option<Seat>) -> Option<u32>
    ensures { result ≡ option_map (λ s. s.frame) seat }
{
    match seat {
        Some(seat) => Some(seat.frame),
        None => None,
    }
}

/// The frame that an entry speaks of.
fn frame_in(entry: Entry, seat: Option<Seat>) -> Option<u32>
    ensures { result ≡ frame_in entry seat }
{
    match entry {
        Entry::Send { frame, .. } => Some(frame.0),
        Entry::Dropped { frame, .. } => Some(frame.0),
        Entry::Shutter { frame, .. } => Some(frame.0),
        Entry::Partial { frame, .. } => Some(frame.0),
        Entry::Filled { frame, .. } => Some(frame.0),
        Entry::Failed { frame, .. } => Some(frame.0),
        Entry::ErrorRequest { frame } => Some(frame.0),
        Entry::ErrorResult { frame } => Some(frame.0),
        Entry::ErrorBuffer { frame, .. } => Some(frame.0),
        Entry::Early { frame, .. } => Some(frame.0),
        Entry::Late { .. } => frame_of(seat),
        _ => None,
    }
}

/// Whether the queue's length, or whether frames are stopped, may change with an entry.
fn counts_at(entry: Entry) -> bool
    ensures { result ≡ counts_at entry }
{
    match entry {
        Entry::Begin { .. } => true,
        Entry::Call { .. } => true,
        Entry::Send { .. } => true,
        Entry::Dropped { .. } => true,
        Entry::ErrorDevice => true,
        _ => false,
    }
}

/// The piece of an entry.
fn piece_of(drawn: &Drawn) -> Piece
    ensures { result ≡ piece_of drawn.now }
{
    Piece {
        look: look_of(drawn.entry),
        since: drawn.since,
        frame: frame_in(drawn.entry, drawn.seat),
        seat: drawn.seat,
    }
}

/// What is shown of an entry's line.
fn title_of(alloc: Global, printer: &mut Printer, entry: Entry) -> Result<Series<u8>, NoMemory>
    requires { IsTrue (is_printable entry) }
    ensures { IfOk result (λ title. title ≡ shown_line entry) }
{
    Series::copied(alloc, shown_line(printer, entry))
}

/// What is drawn of an entry.
fn group_of(alloc: Global, printer: &mut Printer, drawn: &Drawn) -> Result<Group, NoMemory>
    requires { IsTrue (is_printable drawn.now.entry) }
    ensures { IfOk result (λ group. group ≡ group_of drawn.now) }
{
    let mut pieces = Series::new(alloc);
    pieces.push(piece_of(drawn))?;
    let title = title_of(alloc, printer, drawn.entry)?;
    Ok(Group {
        place: drawn.place,
        line: u64::from(drawn.place) + 2,
        title,
        pieces,
        level: drawn.queued,
        stopping: drawn.stopping,
        counted: counts_at(drawn.entry),
        broken: false,
    })
}

/// Adds what is drawn of an entry.
fn put_group(
    alloc: Global,
    printer: &mut Printer,
    drawn: &Drawn,
    groups: &mut Series<Group>,
) -> Result<(), NoMemory>
    requires { IsTrue (is_printable drawn.now.entry) }
    ensures { OnOk result (groups.new ≡ groups.old ++ group_of drawn.now ∷ []) }
{
    let group = group_of(alloc, printer, drawn)?;
    groups.push(group)
}

/// What is drawn of each entry.
fn all_groups(
    alloc: Global,
    printer: &mut Printer,
    drawn: &[Drawn],
) -> Result<Series<Group>, NoMemory>
    requires { IsTrue (list_all (λ one. is_printable one.entry) drawn.now) }
    ensures { IfOk result (λ groups. groups ≡ map group_of drawn.now) }
{
    let mut groups = Series::new(alloc);
    for one in drawn {
        put_group(alloc, printer, one, &mut groups)?;
    }
    Ok(groups)
}

/// What is drawn of the entry that isn't allowed.
fn fault_of(
    alloc: Global,
    printer: &mut Printer,
    place: u32,
    entry: Entry,
) -> Result<Group, NoMemory>
    requires { IsTrue (is_printable entry) }
    ensures { IfOk result (λ group. group ≡ fault_of place entry) }
{
    Ok(Group {
        place,
        line: u64::from(place) + 2,
        title: title_of(alloc, printer, entry)?,
        pieces: Series::new(alloc),
        level: 0,
        stopping: false,
        counted: false,
        broken: true,
    })
}

/// What is drawn of the entry that isn't allowed, where there is one.
fn fault_in(
    alloc: Global,
    printer: &mut Printer,
    place: u32,
    fault: Option<Entry>,
) -> Result<Option<Group>, NoMemory>
    requires { IfSome fault (λ entry. IsTrue (is_printable entry)) }
    ensures { IfOk result (λ group. group ≡ option_map (fault_of place) fault) }
{
    match fault {
        Some(entry) => Ok(Some(fault_of(alloc, printer, place, entry)?)),
        None => Ok(None),
    }
}

/// The bar of a buffer that isn't done.
fn unfinished_of(seat: Seat) -> Piece
    ensures { result ≡ unfinished_of seat }
{
    Piece {
        look: Look::Unfinished,
        since: Some(seat.since),
        frame: Some(seat.frame),
        seat: Some(seat),
    }
}

/// The bars of the buffers that aren't done.
fn all_unfinished(alloc: Global, seats: &[Seat]) -> Result<Series<Piece>, NoMemory>
    ensures { IfOk result (λ pieces. pieces ≡ map unfinished_of seats.now) }
{
    let mut pieces = Series::new(alloc);
    for seat in seats {
        pieces.push(unfinished_of(*seat))?;
    }
    Ok(pieces)
}

/// Adds a lane for the stream, where there is that stream.
fn put_lane(lanes: &mut Series<Lane>, streams: u32, stream: u8) -> Result<(), NoMemory>
    ensures { OnOk result (lanes.new ≡ lanes.old ++ lane_of streams stream) }
{
    let number = u32::from(stream);
    if number < streams {
        lanes.push(Lane {
            place: stream,
            stream: number,
        })
    } else {
        Ok(())
    }
}

/// The lanes of so many streams.
fn lanes_of(alloc: Global, streams: u32) -> Result<Series<Lane>, NoMemory>
    ensures { IfOk result (λ lanes. lanes ≡ lanes_of streams) }
{
    let mut lanes = Series::new(alloc);
    put_lane(&mut lanes, streams, 0)?;
    put_lane(&mut lanes, streams, 1)?;
    put_lane(&mut lanes, streams, 2)?;
    put_lane(&mut lanes, streams, 3)?;
    Ok(lanes)
}

/// One line under a picture.
fn notes_of(alloc: Global, note: &[u8]) -> Result<Series<Series<u8>>, NoMemory>
    ensures { IfOk result (λ notes. notes ≡ note.now ∷ []) }
{
    let mut notes = Series::new(alloc);
    notes.push(Series::copied(alloc, note)?)?;
    Ok(notes)
}

/// The chart of a timeline, whose lines the printer writes.
fn chart_by(
    alloc: Global,
    printer: &mut Printer,
    timeline: &Timeline,
    fault: Option<Entry>,
    note: &[u8],
) -> Result<Chart, NoMemory>
    requires drawn { IsTrue (list_all (λ one. is_printable one.entry) timeline.now.drawn) }
    requires fault { IfSome fault (λ entry. IsTrue (is_printable entry)) }
    ensures { IfOk result (λ chart. chart ≡ chart_of timeline.now fault note.now) }
{
    let rows = timeline.depth.min(16) as u8;
    let count = timeline.drawn.len();
    let drawn = timeline.drawn.as_slice();
    let seats = timeline.unfinished.as_slice();
    let lanes = lanes_of(alloc, timeline.streams)?;
    let unfinished = all_unfinished(alloc, seats)?;
    let notes = notes_of(alloc, note)?;
    let groups = all_groups(alloc, printer, drawn)?;
    let fault = fault_in(alloc, printer, count, fault)?;
    Ok(Chart {
        kind: Kind::Trace,
        rows,
        lanes,
        count,
        groups,
        unfinished,
        fault,
        notes,
    })
}

/// The chart of a timeline, with the entry behind it that isn't allowed, if there is one, and with a note under it.
pub fn chart_of(
    alloc: Global,
    timeline: &Timeline,
    fault: Option<Entry>,
    note: &[u8],
) -> Result<Chart, NoMemory>
    requires drawn { IsTrue (list_all (λ one. is_printable one.entry) timeline.now.drawn) }
    requires fault { IfSome fault (λ entry. IsTrue (is_printable entry)) }
    ensures { IfOk result (λ chart. chart ≡ chart_of timeline.now fault note.now) }
{
    let mut printer = Printer::new(alloc, None)?;
    chart_by(alloc, &mut printer, timeline, fault, note)
}
