//! The picture that an entry brings.
ghost use Rattle.std.specs.Prelude.{◌≡◌, filter, reverse, slice_get};
ghost use Rattle.trace_model.specs.Configuration.{streams};
ghost use Rattle.trace_model.specs.Entry.{is_call};
ghost use Rattle.trace_model.specs.Frames.{settings_of};
ghost use Rattle.video_call.specs.Film.{brought, shot_for, shot_on};

use crate::calls::{item_by, streams_by};
use cam_types::{FrameNo, Script, Settings, StreamIx, StreamSpec};
use judge_filters::frame::{send_of, settings_in};
use judge_rules::filled::early_with;
use trace_model::Entry;

/// A picture that a good buffer of a stream brought: of which frame, captured with which settings, and in which format
/// and size.
#[derive(Clone, Copy)]
pub struct Shot {
    pub frame: FrameNo,
    pub settings: Settings,
    pub spec: StreamSpec,
}

/// The frame and the stream whose picture is there with the entry.
fn brought(entries: &[Entry], entry: &Entry) -> Option<(FrameNo, StreamIx)>
    ensures { result ≡ brought (reverse entries.now) entry.now }
{
    match entry {
        Entry::Filled { frame, stream, .. } => Some((*frame, *stream)),
        Entry::Late { fence, .. } => early_with(entries, *fence),
        _ => None,
    }
}

/// The settings of a frame that the entries sent, of which the calls are given.
fn settings_by(script: &Script, entries: &[Entry], calls: &[Entry], frame: FrameNo) -> Settings
    requires { calls.now ≡ filter is_call entries.now }
    ensures { result ≡ settings_of script.now (reverse entries.now) frame.0 }
{
    match send_of(entries, frame) {
        Some(Entry::Send { request, item, .. }) => {
            settings_in(item_by(script, entries, calls, *request, *item))
        }
        _ => settings_in(None),
    }
}

/// The picture of a frame for a stream of the configuration.
fn shot_on(
    script: &Script,
    entries: &[Entry],
    calls: &[Entry],
    frame: FrameNo,
    stream: StreamIx,
) -> Option<Shot>
    requires { calls.now ≡ filter is_call entries.now }
    ensures { result ≡
        shot_on (slice_get (streams script.now (reverse entries.now)) stream.0)
        (settings_of script.now (reverse entries.now) frame.0) frame }
{
    let settings = settings_by(script, entries, calls, frame);
    match streams_by(script, entries, calls).get(usize::from(stream.0)) {
        Some(spec) => Some(Shot {
            frame,
            settings,
            spec: *spec,
        }),
        None => None,
    }
}

/// The picture of the stream that is there with the entry, behind the entries, of which the calls are given.
pub(crate) fn shot_with(
    script: &Script,
    entries: &[Entry],
    calls: &[Entry],
    entry: &Entry,
    stream: StreamIx,
) -> Option<Shot>
    requires { calls.now ≡ filter is_call entries.now }
    ensures { result ≡
        shot_for script.now (reverse entries.now) stream.0 (brought (reverse entries.now) entry.now) }
{
    match brought(entries, entry) {
        Some((frame, of)) if of.0 == stream.0 => shot_on(script, entries, calls, frame, stream),
        _ => None,
    }
}
