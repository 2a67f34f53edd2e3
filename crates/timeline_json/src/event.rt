//! The kinds of events.
ghost use Rattle.std.specs.Prelude.{◌≡◌, IfOk, OnOk, codes};
ghost use Rattle.std.specs.List.{fold};
ghost use Rattle.serde_json.specs.Data.{no_members, number, object, put as with, string, unsigned};
ghost use Rattle.serde_json.specs.View.{members_view, view};
ghost use Rattle.timeline_json.specs.Events.{called_data, count_data, flow_data, levels_data, line_data, naming_data, slice_data, verdict_data};

use crate::track::Track;
use cam_types::NoMemory;
use serde_json::{Map, Value, put};
use std::alloc::Global;

/// Adds texts, each by its key.
fn put_texts(
    members: &mut Map<String, Value>,
    alloc: Global,
    texts: &[(&str, &str)],
) -> Result<(), NoMemory>
    ensures { OnOk result (members_view members.new.entries
        ≡ fold (λ ms m. with m.0.now (string m.1.now) ms) (members_view members.old.entries) texts.now) }
{
    for member in texts {
        let text = Value::try_from_str(alloc, member.1)?;
        put(members, alloc, member.0, text)?;
    }
    Ok(())
}

/// Adds numbers, each by its key.
fn put_numbers(
    members: &mut Map<String, Value>,
    alloc: Global,
    numbers: &[(&str, u64)],
) -> Result<(), NoMemory>
    ensures { OnOk result (members_view members.new.entries
        ≡ fold (λ ms m. with m.0.now (number (unsigned m.1)) ms) (members_view members.old.entries) numbers.now) }
{
    for member in numbers {
        put(members, alloc, member.0, Value::from(member.1))?;
    }
    Ok(())
}

/// The members of an object of texts and numbers.
fn members_of(
    alloc: Global,
    texts: &[(&str, &str)],
    numbers: &[(&str, u64)],
) -> Result<Map<String, Value>, NoMemory>
    ensures { IfOk result (λ members. members_view members.entries
        ≡ fold (λ ms m. with m.0.now (number (unsigned m.1)) ms)
        (fold (λ ms m. with m.0.now (string m.1.now) ms) no_members texts.now) numbers.now) }
{
    let mut members = Map::new(alloc);
    put_texts(&mut members, alloc, texts)?;
    put_numbers(&mut members, alloc, numbers)?;
    Ok(members)
}

/// An object of texts and numbers.
fn object_of(
    alloc: Global,
    texts: &[(&str, &str)],
    numbers: &[(&str, u64)],
) -> Result<Value, NoMemory>
    ensures { IfOk result (λ v. view v
        ≡ object (fold (λ ms m. with m.0.now (number (unsigned m.1)) ms)
        (fold (λ ms m. with m.0.now (string m.1.now) ms) no_members texts.now) numbers.now)) }
{
    let members = members_of(alloc, texts, numbers)?;
    Ok(Value::Object(members))
}

/// An event with arguments.
fn event_of(
    alloc: Global,
    args: Value,
    texts: &[(&str, &str)],
    numbers: &[(&str, u64)],
) -> Result<Value, NoMemory>
    ensures { IfOk result (λ v. view v
        ≡ object (with (codes "args") (view args) (fold (λ ms m. with m.0.now (number (unsigned m.1)) ms)
        (fold (λ ms m. with m.0.now (string m.1.now) ms) no_members texts.now) numbers.now))) }
{
    let mut members = members_of(alloc, texts, numbers)?;
    put(&mut members, alloc, "args", args)?;
    Ok(Value::Object(members))
}

/// A step of the flow of a frame, which begins with its send.
pub fn flow(
    alloc: Global,
    track: Track,
    place: u64,
    frame: u64,
    phase: &str,
) -> Result<Value, NoMemory>
    ensures { IfOk result (λ v. view v ≡ flow_data track place frame phase.now) }
{
    let texts = [("cat", "frame"), ("name", "frame"), ("ph", phase)];
    let numbers = [
        ("id", frame),
        ("pid", track.process),
        ("tid", track.thread),
        ("ts", place),
    ];
    object_of(alloc, &texts, &numbers)
}

/// The verdict on the trace.
pub fn verdict_value(alloc: Global, note: &str) -> Result<Value, NoMemory>
    ensures { IfOk result (λ v. view v ≡ verdict_data note.now) }
{
    object_of(alloc, &[("verdict", note)], &[])
}

/// A slice of a track, from a place on, over so many places, with the line of its entry.
pub fn slice_of(
    alloc: Global,
    track: Track,
    from: u64,
    length: u64,
    name: &str,
    line: &str,
) -> Result<Value, NoMemory>
    ensures { IfOk result (λ v. view v ≡ slice_data track from length name.now (line_data line.now)) }
{
    let args = object_of(alloc, &[("line", line)], &[])?;
    let texts = [("name", name), ("ph", "X")];
    let numbers = [
        ("dur", length),
        ("pid", track.process),
        ("tid", track.thread),
        ("ts", from),
    ];
    event_of(alloc, args, &texts, &numbers)
}

/// The levels at a place.
pub fn levels_at(alloc: Global, place: u64, queued: u64, stopping: u64) -> Result<Value, NoMemory>
    ensures { IfOk result (λ v. view v ≡ count_data place (levels_data queued stopping)) }
{
    let args = object_of(alloc, &[], &[("queued", queued), ("stopping", stopping)])?;
    let texts = [("name", "levels"), ("ph", "C")];
    event_of(alloc, args, &texts, &[("pid", 1), ("ts", place)])
}

/// The name of a process or a track.
pub fn name_of(alloc: Global, what: &str, track: Track, name: &str) -> Result<Value, NoMemory>
    ensures { IfOk result (λ v. view v ≡ naming_data what.now track (called_data name.now)) }
{
    let args = object_of(alloc, &[("name", name)], &[])?;
    let texts = [("name", what), ("ph", "M")];
    event_of(
        alloc,
        args,
        &texts,
        &[("pid", track.process), ("tid", track.thread)],
    )
}
