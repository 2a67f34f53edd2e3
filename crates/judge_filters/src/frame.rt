//! A frame is what a send makes of an item.
ghost use Rattle.std.specs.Prelude.{◌≡◌, reverse, option_copied};
ghost use Rattle.cam_types.specs.Four.{four_list};
ghost use Rattle.judge_filters.specs.Past.{time_in};
ghost use Rattle.trace_model.specs.Frames.{is_sent, send_of, targets_of, target_of, has_target, item_of, settings_in};
ghost use Rattle.trace_model.specs.Frames.{settings_of, is_repeating_frame, has_shutter, has_error_request, has_error};
ghost use Rattle.trace_model.specs.Frames.{shutter_time};

use crate::call::{is_repeating, item_at};
use crate::wanted::{Wanted, last, stands};
use cam_types::{Four, FrameNo, Item, Script, Settings, StreamIx};
use judge_entries::target::{has_stream, target_for};
use trace_model::{Entry, Sent};

/// Whether the frame was sent.
pub fn is_sent(entries: &[Entry], frame: FrameNo) -> bool
    ensures { result ≡ is_sent frame.0 (reverse entries.now) }
{
    stands(entries, Wanted::Send(frame))
}

/// The entry that sent the frame.
pub fn send_of(entries: &[Entry], frame: FrameNo) -> Option<&Entry>
    ensures { option_copied result ≡ send_of frame.0 (reverse entries.now) }
{
    last(entries, Wanted::Send(frame))
}

/// The buffers that the frame was sent with.
pub fn targets_of(entries: &[Entry], frame: FrameNo) -> Four<Sent>
    ensures { four_list result ≡ targets_of frame.0 (reverse entries.now) }
{
    match send_of(entries, frame) {
        Some(Entry::Send { targets, .. }) => *targets,
        _ => Four {
            a: None,
            b: None,
            c: None,
            d: None,
        },
    }
}

/// The frame's target for the stream.
pub fn target_of(entries: &[Entry], frame: FrameNo, stream: StreamIx) -> Option<Sent>
    ensures { result ≡ target_of frame.0 stream.0 (reverse entries.now) }
{
    target_for(&targets_of(entries, frame), stream)
}

/// Whether the frame has a target for the stream.
pub fn has_target(entries: &[Entry], frame: FrameNo, stream: StreamIx) -> bool
    ensures { result ≡ has_target frame.0 stream.0 (reverse entries.now) }
{
    has_stream(&targets_of(entries, frame), stream)
}

/// The item that the frame was sent for.
pub fn item_of(script: &Script, entries: &[Entry], frame: FrameNo) -> Option<Item>
    ensures { result ≡ item_of script.now (reverse entries.now) frame.0 }
{
    match send_of(entries, frame) {
        Some(Entry::Send { request, item, .. }) => item_at(script, entries, *request, *item),
        _ => None,
    }
}

/// An item's settings; all are 0 where there is no item.
pub fn settings_in(item: Option<Item>) -> Settings
    ensures { result ≡ settings_in item }
{
    match item {
        Some(item) => item.settings,
        None => Settings {
            pattern: 0,
            level: 0,
            exposure: 0,
            iso: 0,
        },
    }
}

/// The settings of the frame.
pub fn settings_of(script: &Script, entries: &[Entry], frame: FrameNo) -> Settings
    ensures { result ≡ settings_of script.now (reverse entries.now) frame.0 }
{
    settings_in(item_of(script, entries, frame))
}

/// Whether the frame is of a repeating request.
pub fn is_repeating_frame(script: &Script, entries: &[Entry], frame: FrameNo) -> bool
    ensures { result ≡ is_repeating_frame script.now (reverse entries.now) frame.0 }
{
    match send_of(entries, frame) {
        Some(Entry::Send { request, .. }) => is_repeating(script, entries, *request),
        _ => false,
    }
}

/// Whether the frame has its shutter.
pub fn has_shutter(entries: &[Entry], frame: FrameNo) -> bool
    ensures { result ≡ has_shutter frame.0 (reverse entries.now) }
{
    stands(entries, Wanted::Shutter(frame))
}

/// Whether the capture of the frame failed whole.
pub fn has_error_request(entries: &[Entry], frame: FrameNo) -> bool
    ensures { result ≡ has_error_request frame.0 (reverse entries.now) }
{
    stands(entries, Wanted::ErrorRequest(frame))
}

/// Whether the frame has an error.
pub fn has_error(entries: &[Entry], frame: FrameNo) -> bool
    ensures { result ≡ has_error frame.0 (reverse entries.now) }
{
    stands(entries, Wanted::ErrorOf(frame))
}

/// The time of a shutter.
fn time_in(entry: Option<&Entry>) -> Option<u64>
    ensures { result ≡ time_in (option_copied entry.entry) }
{
    match entry {
        Some(Entry::Shutter { time, .. }) => Some(*time),
        _ => None,
    }
}

/// The time of the frame's shutter.
#[tactic(auto, using(crate::proofs::PastLemmas::shutter_found))]
pub fn shutter_time(entries: &[Entry], frame: FrameNo) -> Option<u64>
    ensures { result ≡ shutter_time frame.0 (reverse entries.now) }
{
    time_in(last(entries, Wanted::Shutter(frame)))
}
