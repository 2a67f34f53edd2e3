//! When a buffer may come back with its picture, or early and its picture later.
ghost use Rattle.std.specs.Prelude.{◌≡◌, reverse, find, option_copied};
ghost use Rattle.trace_model.specs.Entry.{is_early_with};
ghost use Rattle.trace_model.specs.Filled.{is_sound, may_deliver};
ghost use Rattle.judge_rules.specs.Fills.{delivers, early_in, fills_late};

use cam_types::{BufferId, DeviceFenceNo, FrameNo, Script, StreamIx};
use judge_entries::fault::{buffer_fault, request_fault};
use judge_filters::fence::{early_return, is_late, is_passed};
use judge_filters::frame::{has_error_request, has_shutter, target_of};
use judge_filters::open::has_error_buffer;
use judge_filters::order::earlier_let_pass;
use judge_filters::place::is_at_device_by;
use trace_model::{Entry, Sent};

/// Whether nothing of the script or of the trace says that the frame's buffer for the stream fails.
fn is_sound(script: &Script, entries: &[Entry], frame: FrameNo, stream: StreamIx) -> bool
    ensures { result ≡ is_sound script.now (reverse entries.now) frame.0 stream.0 }
{
    (!request_fault(script, frame) && !buffer_fault(script, frame, stream))
        && (!has_error_request(entries, frame) && !has_error_buffer(entries, frame, stream))
}

/// Whether the frame's target for the stream may come back with its picture.
fn may_deliver(
    script: &Script,
    entries: &[Entry],
    frame: FrameNo,
    stream: StreamIx,
    sent: Sent,
) -> bool
    ensures { result ≡ may_deliver script.now (reverse entries.now) frame.0 stream.0 sent }
{
    (is_at_device_by(entries, frame, stream, sent.buffer)
        && (has_shutter(entries, frame) && is_sound(script, entries, frame, stream)))
        && (is_passed(entries, sent.fence) && earlier_let_pass(entries, stream, frame))
}

/// Whether the buffer is that of the frame's target for the stream, and may come back with its picture.
pub fn delivers(
    script: &Script,
    entries: &[Entry],
    frame: FrameNo,
    stream: StreamIx,
    buffer: BufferId,
) -> bool
    ensures { result ≡ delivers script.now (reverse entries.now) frame.0 stream.0 buffer.0 }
{
    match target_of(entries, frame, stream) {
        Some(sent) => {
            may_deliver(script, entries, frame, stream, sent) && sent.buffer.0 == buffer.0
        }
        None => false,
    }
}

/// The frame and the stream of an early return.
fn early_in(entry: Option<&Entry>) -> Option<(FrameNo, StreamIx)>
    ensures { result ≡ early_in (option_copied entry.entry) }
{
    match entry {
        Some(Entry::Early { frame, stream, .. }) => Some((*frame, *stream)),
        _ => None,
    }
}

/// The frame and the stream whose buffer came back early with the device fence.
pub fn early_with(entries: &[Entry], fence: DeviceFenceNo) -> Option<(FrameNo, StreamIx)>
    ensures { result ≡ early_in (find (is_early_with fence.0) (reverse entries.now)) }
{
    early_in(early_return(entries, fence))
}

/// The frame and the stream whose picture is due with the signal of the device fence.
pub fn fills_late(entries: &[Entry], fence: DeviceFenceNo) -> Option<(FrameNo, StreamIx)>
    ensures { result ≡ fills_late (reverse entries.now) fence.0 }
{
    if is_late(entries, fence) {
        None
    } else {
        early_with(entries, fence)
    }
}
