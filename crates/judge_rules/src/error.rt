//! When an error is announced.
ghost use Rattle.std.specs.Prelude.{◌≡◌, reverse};
ghost use Rattle.std.specs.List.{list_any};
ghost use Rattle.judge_filters.specs.Past.{on_send};
ghost use Rattle.trace_model.specs.Errors.{may_fail_request, may_fail_in_part, is_cut_short, may_fail_result, may_fail_buffer, may_fail_device_at, may_fail_device};
ghost use Rattle.trace_model.specs.Frames.{frames};

use crate::sensor::is_next_for_sensor;
use cam_types::{FrameNo, Script, StreamIx};
use judge_entries::fault::{buffer_fault, device_fault, request_fault, result_fault};
use judge_filters::frame::{has_error_request, has_shutter, has_target};
use judge_filters::open::{
    has_error_buffer, has_something, is_metadata_ended, is_open, is_returned,
};
use judge_filters::order::earlier_metadata_ended;
use judge_filters::stopping::{is_stopped, is_stopping};
use trace_model::Entry;

/// Whether the capture of the frame may fail whole.
pub fn may_fail_request(script: &Script, entries: &[Entry], frame: FrameNo) -> bool
    ensures { result ≡ may_fail_request script.now (reverse entries.now) frame.0 }
{
    (is_open(entries, frame) && !has_something(entries, frame))
        && ((request_fault(script, frame) && has_shutter(entries, frame))
            || is_stopped(entries, frame))
}

/// Whether a part of the capture may be named as missing.
pub fn may_fail_in_part(script: &Script, entries: &[Entry], frame: FrameNo) -> bool
    ensures { result ≡ may_fail_in_part script.now (reverse entries.now) frame.0 }
{
    has_shutter(entries, frame) && (!request_fault(script, frame) || is_stopped(entries, frame))
}

/// Whether the frame was stopped after something of it came.
pub fn is_cut_short(entries: &[Entry], frame: FrameNo) -> bool
    ensures { result ≡ is_cut_short (reverse entries.now) frame.0 }
{
    is_stopped(entries, frame) && has_something(entries, frame)
}

/// Whether it may be announced that metadata of the frame is missing.
pub fn may_fail_result(script: &Script, entries: &[Entry], frame: FrameNo) -> bool
    ensures { result ≡ may_fail_result script.now (reverse entries.now) frame.0 }
{
    (may_fail_in_part(script, entries, frame) && !is_metadata_ended(entries, frame))
        && (earlier_metadata_ended(entries, frame)
            && (result_fault(script, frame) || is_cut_short(entries, frame)))
}

/// Whether it may be announced that the frame's buffer for the stream won't be filled.
pub fn may_fail_buffer(script: &Script, entries: &[Entry], frame: FrameNo, stream: StreamIx) -> bool
    ensures { result ≡ may_fail_buffer script.now (reverse entries.now) frame.0 stream.0 }
{
    (has_target(entries, frame, stream)
        && (may_fail_in_part(script, entries, frame) && !has_error_request(entries, frame)))
        && ((!has_error_buffer(entries, frame, stream) && !is_returned(entries, frame, stream))
            && (buffer_fault(script, frame, stream) || is_cut_short(entries, frame)))
}

/// Whether the device fails where the frame would have its shutter.
pub fn may_fail_device_at(script: &Script, entries: &[Entry], frame: FrameNo) -> bool
    ensures { result ≡ may_fail_device_at script.now (reverse entries.now) frame.0 }
{
    device_fault(script, frame) && is_next_for_sensor(entries, frame)
}

/// Whether the entry sends a frame where the device fails.
fn sends_failing(script: &Script, entries: &[Entry], entry: &Entry) -> bool
    ensures { result ≡ on_send (may_fail_device_at script.now (reverse entries.now)) entry.now }
{
    match entry {
        Entry::Send { frame, .. } => may_fail_device_at(script, entries, *frame),
        _ => false,
    }
}

fn fails_at_a_send(script: &Script, entries: &[Entry]) -> bool
    ensures { result ≡ list_any (on_send (may_fail_device_at script.now (reverse entries.now))) (reverse entries.now) }
{
    entries
        .iter()
        .rev()
        .any(|entry| sends_failing(script, entries, entry))
}

/// Whether the device fails at a frame that was sent.
#[tactic(auto, using(crate::proofs::RuleLemmas::frames_any))]
pub fn fails_at_a_frame(script: &Script, entries: &[Entry]) -> bool
    ensures { result ≡ list_any (may_fail_device_at script.now (reverse entries.now)) (frames (reverse entries.now)) }
{
    fails_at_a_send(script, entries)
}

/// Whether the device fails.
pub fn may_fail_device(script: &Script, entries: &[Entry]) -> bool
    ensures { result ≡ may_fail_device script.now (reverse entries.now) }
{
    !is_stopping(entries) && fails_at_a_frame(script, entries)
}
