//! The whole text: the notes, the names of the tracks, and the events.
ghost use Rattle.std.specs.Prelude.{◌≡◌, ◌++◌, ◌∷◌, [], IfOk, OnOk, map, string_bytes};
ghost use Rattle.std.specs.List.{flat_map};
ghost use Rattle.serde_json.specs.Written.{compact_text};
ghost use Rattle.timeline_json.specs.Timelines.{behind_commas, camera_text, events_text, head_text, json_text, names_text, note_line, rest_text, stream_name, thread, thread_names, verdict_text};

use crate::event::{name_of, verdict_value};
use crate::events::{put_all_unfinished, put_fault_group, put_groups};
use crate::text::{put, put_event, put_plain, put_value};
use crate::track::{Track, named, own};
use cam_types::NoMemory;
use std::alloc::Global;
use timeline_model::{Chart, Kind, Lane, Series};

/// Writes the name of a thread.
fn put_thread(out: &mut Vec<u8>, alloc: Global, number: u64, name: &str) -> Result<(), NoMemory>
    ensures { OnOk result (out.new.items ≡ out.old.items ++ 44 ∷ compact_text (thread number name.now)) }
{
    let event = name_of(alloc, "thread_name", own(number), name)?;
    put_event(out, alloc, event)
}

/// The threads that each trace has.
const TRACE_THREADS: [(u64, &str); 6] = [
    (1, "calls"),
    (2, "send, drop"),
    (3, "shutter"),
    (4, "metadata"),
    (5, "fences"),
    (6, "not allowed"),
];

/// Those that each hal log has, one for each kind of call among them.
const HAL_THREADS: [(u64, &str); 10] = [
    (2, "request"),
    (3, "shutter"),
    (4, "metadata"),
    (6, "breach"),
    (7, "open"),
    (8, "initialize"),
    (9, "template"),
    (10, "configure"),
    (11, "flush"),
    (12, "close"),
];

/// The threads of a kind of input, with their numbers.
fn threads_of(kind: Kind) -> &'static [(u64, &'static str)]
    ensures { map (λ t. thread t.0 t.1.now) result.now ≡ thread_names kind }
{
    match kind {
        Kind::Trace => &TRACE_THREADS,
        Kind::Hal => &HAL_THREADS,
    }
}

/// Writes the names of threads.
fn put_threads(out: &mut Vec<u8>, alloc: Global, threads: &[(u64, &str)]) -> Result<(), NoMemory>
    ensures { OnOk result (out.new.items ≡ out.old.items
        ++ behind_commas (map (λ t. thread t.0 t.1.now) threads.now)) }
{
    for thread in threads {
        put_thread(out, alloc, thread.0, thread.1)?;
    }
    Ok(())
}

/// Writes the name of a stream.
fn put_stream(out: &mut Vec<u8>, alloc: Global, lane: &Lane) -> Result<(), NoMemory>
    ensures { OnOk result (out.new.items ≡ out.old.items ++ 44 ∷ compact_text (stream_name lane.now)) }
{
    let name = named(alloc, "stream", Some(lane.stream))?;
    let track = Track {
        process: 2 + u64::from(lane.place),
        thread: 0,
    };
    let event = name_of(alloc, "process_name", track, name.as_str())?;
    put_event(out, alloc, event)
}

/// Writes the names of the streams.
fn put_streams(out: &mut Vec<u8>, alloc: Global, lanes: &[Lane]) -> Result<(), NoMemory>
    ensures { OnOk result (out.new.items ≡ out.old.items
        ++ flat_map (λ lane. 44 ∷ compact_text (stream_name lane)) lanes.now) }
{
    for lane in lanes {
        put_stream(out, alloc, lane)?;
    }
    Ok(())
}

/// Adds a note as a line.
fn put_note(text: &mut String, note: &[u8]) -> Result<(), NoMemory>
    ensures { OnOk result (string_bytes text.new ≡ string_bytes text.old ++ note_line note.now) }
{
    put_plain(text, note)?;
    text.push_str("\n")
}

/// The notes, each a line.
fn notes_text(alloc: Global, notes: &[Series<u8>]) -> Result<String, NoMemory>
    ensures { IfOk result (λ text. string_bytes text ≡ flat_map note_line notes.now) }
{
    let mut text = String::new(alloc);
    for note in notes {
        put_note(&mut text, note.as_slice())?;
    }
    Ok(text)
}

/// Writes the notes.
#[tactic(auto, unfolding(crate::specs::Timelines::verdict_text))]
fn put_verdict(out: &mut Vec<u8>, alloc: Global, note: &str) -> Result<(), NoMemory>
    ensures { OnOk result (out.new.items ≡ out.old.items ++ verdict_text note.now) }
{
    put(out, b"{\"otherData\":")?;
    let verdict = verdict_value(alloc, note)?;
    put_value(out, alloc, verdict)
}

/// Writes the first event, which names the camera.
#[tactic(auto, unfolding(crate::specs::Timelines::camera_text))]
fn put_camera(out: &mut Vec<u8>, alloc: Global) -> Result<(), NoMemory>
    ensures { OnOk result (out.new.items ≡ out.old.items ++ camera_text) }
{
    let track = Track {
        process: 1,
        thread: 0,
    };
    put(out, b",\"traceEvents\":[")?;
    let event = name_of(alloc, "process_name", track, "camera")?;
    put_value(out, alloc, event)
}

/// Writes the notes, and the first event.
fn put_head(out: &mut Vec<u8>, alloc: Global, notes: &[Series<u8>]) -> Result<(), NoMemory>
    ensures { OnOk result (out.new.items ≡ out.old.items ++ head_text notes.now) }
{
    let note = notes_text(alloc, notes)?;
    put_verdict(out, alloc, note.as_str())?;
    put_camera(out, alloc)
}

/// Writes the names of the tracks.
#[tactic(auto, unfolding(crate::specs::Timelines::names_text))]
fn put_names(out: &mut Vec<u8>, alloc: Global, chart: &Chart) -> Result<(), NoMemory>
    ensures { OnOk result (out.new.items ≡ out.old.items ++ names_text chart.now) }
{
    put_threads(out, alloc, threads_of(chart.kind))?;
    put_streams(out, alloc, chart.lanes.as_slice())
}

/// Writes the events of all lines.
#[tactic(auto, unfolding(crate::specs::Timelines::events_text))]
fn put_events(out: &mut Vec<u8>, alloc: Global, chart: &Chart) -> Result<(), NoMemory>
    ensures { OnOk result (out.new.items ≡ out.old.items ++ events_text chart.now) }
{
    put_groups(out, alloc, chart.kind, chart.groups.as_slice())?;
    put_all_unfinished(out, alloc, chart.count, chart.unfinished.as_slice())?;
    put_fault_group(out, alloc, chart.kind, &chart.fault)
}

/// Writes all events but the first, and the end.
#[tactic(auto, unfolding(crate::specs::Timelines::rest_text))]
fn put_rest(out: &mut Vec<u8>, alloc: Global, chart: &Chart) -> Result<(), NoMemory>
    ensures { OnOk result (out.new.items ≡ out.old.items ++ rest_text chart.now) }
{
    put_names(out, alloc, chart)?;
    put_events(out, alloc, chart)?;
    put(out, b"]}")
}

/// The trace events of a chart, as JSON.
#[tactic(auto, using(crate::proofs::Parts::whole))]
pub fn json_text(alloc: Global, chart: &Chart) -> Result<Vec<u8>, NoMemory>
    ensures { IfOk result (λ text. text.items ≡ json_text chart.now) }
{
    let mut out = Vec::new(alloc);
    put_head(&mut out, alloc, chart.notes.as_slice())?;
    put_rest(&mut out, alloc, chart)?;
    Ok(out)
}
