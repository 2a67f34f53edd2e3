//! The conditions of a buffer that comes back, and of a picture that comes late.
ghost use Rattle.std.specs.Prelude.{◌≡◌, ℕ, List, true, false, reverse};
ghost use Rattle.std.specs.List.{list_any};
ghost use Rattle.rule_conditions.specs.Parts.{is_plain, is_plain_late};
ghost use Rattle.rule_conditions.specs.Returns.{delivery_holds, early_holds, failed_holds, fence_for, filled_holds};
ghost use Rattle.rule_conditions.specs.Returns.{is_out_for, late_holds};
ghost use Rattle.cam_types.specs.declared.script.Script.{Script as SomeScript};
ghost use Rattle.trace_model.specs.Entry.{is_early_with};

use crate::Condition;
use cam_types::{BufferId, DeviceFenceNo, FenceNo, FrameNo, Script, StreamIx};
use judge_entries::fault::{buffer_fault, request_fault};
use judge_entries::number::next_early;
use judge_filters::fence::{is_late, is_passed, is_same_fence};
use judge_filters::frame::{has_error_request, has_shutter, target_of};
use judge_filters::open::has_error_buffer;
use judge_filters::order::earlier_let_pass;
use judge_filters::place::is_at_device_by;
use judge_rules::buffer::fence_left;
use trace_model::Entry;

/// A buffer that comes back, as its entry says: for a frame and a stream.
#[derive(Clone, Copy)]
pub struct Return {
    pub frame: FrameNo,
    pub stream: StreamIx,
    pub buffer: BufferId,
}

impl Return {
    /// Of these.
    pub fn new(frame: FrameNo, stream: StreamIx, buffer: BufferId) -> Return
        ensures frame { result.frame ≡ frame }
        ensures stream { result.stream ≡ stream }
        ensures buffer { result.buffer ≡ buffer }
    {
        Return {
            frame,
            stream,
            buffer,
        }
    }
}

/// Whether the buffer is the one that the frame was sent with for the stream, and at the device by that send.
fn is_out(entries: &[Entry], back: Return) -> bool
    ensures { result ≡ is_out_for (reverse entries.now) back.frame.0 back.stream.0 back.buffer.0 }
{
    match target_of(entries, back.frame, back.stream) {
        Some(target) => {
            target.buffer.0 == back.buffer.0
                && is_at_device_by(entries, back.frame, back.stream, back.buffer)
        }
        None => false,
    }
}

/// The acquire fence of the frame's buffer for the stream.
fn fence_for(entries: &[Entry], back: Return) -> Option<FenceNo>
    ensures { result ≡ fence_for (reverse entries.now) back.frame.0 back.stream.0 }
{
    match target_of(entries, back.frame, back.stream) {
        Some(target) => target.fence,
        None => None,
    }
}

/// Whether a good buffer meets the condition.
fn delivery_holds(condition: Condition, script: &Script, entries: &[Entry], back: Return) -> bool
    ensures { result ≡
        delivery_holds condition script.now (reverse entries.now) back.frame.0 back.stream.0 back.buffer.0 }
{
    let Return { frame, stream, .. } = back;
    match condition {
        Condition::DeliveryAtDevice => is_out(entries, back),
        Condition::DeliveryBehindShutter => has_shutter(entries, frame),
        Condition::DeliveryWithoutFault => {
            !request_fault(script, frame) && !buffer_fault(script, frame, stream)
        }
        Condition::DeliveryWithoutError => {
            !has_error_request(entries, frame) && !has_error_buffer(entries, frame, stream)
        }
        Condition::DeliveryBehindFence => is_passed(entries, fence_for(entries, back)),
        Condition::DeliveryInOrder => earlier_let_pass(entries, stream, frame),
        _ => true,
    }
}

/// Whether the buffer with its picture meets the condition, if it isn't that of the digest; of that it says false.
pub fn filled_holds(
    condition: Condition,
    script: &Script,
    entries: &[Entry],
    back: Return,
    fence: Option<FenceNo>,
) -> bool
    ensures plain { (digest : List ℕ) → is_plain condition ≡ true →
        result ≡
        filled_holds condition script.now (reverse entries.now) back.frame.0 back.stream.0 back.buffer.0 fence
        digest }
    ensures picture { is_plain condition ≡ false → result ≡ false }
{
    match condition {
        Condition::DeliveryBehindFence => {
            delivery_holds(Condition::DeliveryBehindFence, script, entries, back) && fence.is_none()
        }
        Condition::PictureOfFrame => false,
        _ => delivery_holds(condition, script, entries, back),
    }
}

/// Whether the early return meets the condition.
pub fn early_holds(
    condition: Condition,
    script: &Script,
    entries: &[Entry],
    back: Return,
    fence: DeviceFenceNo,
) -> bool
    ensures { result ≡
        early_holds condition script.now (reverse entries.now) back.frame.0 back.stream.0 back.buffer.0 fence.0 }
{
    match condition {
        Condition::EarlyInScript => script.early,
        Condition::EarlyNextFence => fence.0 as usize == next_early(entries),
        _ => delivery_holds(condition, script, entries, back),
    }
}

/// Whether a buffer came back early with the device fence.
fn has_come_early(entries: &[Entry], fence: DeviceFenceNo) -> bool
    ensures { result ≡ list_any (is_early_with fence.0) (reverse entries.now) }
{
    entries
        .iter()
        .rev()
        .any(|entry| judge_entries::entry::is_early_with(entry, fence))
}

/// Whether the picture that comes late meets the condition, if it isn't that of the digest; of that it says false.
pub fn late_holds(condition: Condition, entries: &[Entry], fence: DeviceFenceNo) -> bool
    ensures plain { (script : SomeScript) (digest : List ℕ) → is_plain_late condition ≡ true →
        result ≡ late_holds condition script (reverse entries.now) fence.0 digest }
    ensures picture { is_plain_late condition ≡ false → result ≡ false }
{
    match condition {
        Condition::LateOfEarlyBuffer => has_come_early(entries, fence),
        Condition::LateToldOnce => !is_late(entries, fence),
        Condition::LatePictureOfFrame => false,
        _ => true,
    }
}

/// Whether the buffer in error meets the condition.
pub fn failed_holds(
    condition: Condition,
    entries: &[Entry],
    back: Return,
    fence: Option<FenceNo>,
) -> bool
    ensures { result ≡
        failed_holds condition (reverse entries.now) back.frame.0 back.stream.0 back.buffer.0 fence }
{
    let Return { frame, stream, .. } = back;
    match condition {
        Condition::FailedAtDevice => is_out(entries, back),
        Condition::FailedBehindError => {
            has_error_request(entries, frame) || has_error_buffer(entries, frame, stream)
        }
        Condition::FailedFence => {
            let left = fence_left(entries, fence_for(entries, back));
            is_same_fence(fence, left)
        }
        _ => true,
    }
}
