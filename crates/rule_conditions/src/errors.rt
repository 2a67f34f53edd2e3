//! The conditions of the errors.
ghost use Rattle.std.specs.Prelude.{◌≡◌, reverse};
ghost use Rattle.rule_conditions.specs.Errors.{buffer_error_holds, device_error_holds, may_fail_partly};
ghost use Rattle.rule_conditions.specs.Errors.{request_error_holds, result_error_holds};

use crate::Condition;
use cam_types::{FrameNo, Script, StreamIx};
use judge_entries::fault::{buffer_fault, request_fault, result_fault};
use judge_filters::frame::{has_error_request, has_shutter, has_target};
use judge_filters::open::{
    has_error_buffer, has_something, is_metadata_ended, is_open, is_returned,
};
use judge_filters::order::earlier_metadata_ended;
use judge_filters::stopping::{is_stopped, is_stopping};
use judge_rules::error::fails_at_a_frame;
use trace_model::Entry;

/// Whether the request's error of the frame meets the condition.
pub fn request_error_holds(
    condition: Condition,
    script: &Script,
    entries: &[Entry],
    frame: FrameNo,
) -> bool
    ensures { result ≡ request_error_holds condition script.now (reverse entries.now) frame.0 }
{
    match condition {
        Condition::RequestErrorOfOpenFrame => is_open(entries, frame),
        Condition::RequestErrorOfBareFrame => !has_something(entries, frame),
        Condition::RequestErrorHasCause => is_stopped(entries, frame)
            || request_fault(script, frame),
        Condition::RequestErrorBehindShutter => {
            is_stopped(entries, frame) || has_shutter(entries, frame)
        }
        _ => true,
    }
}

/// Whether a part of the frame may fail: it has no request fault, or was stopped.
fn may_fail_partly(script: &Script, entries: &[Entry], frame: FrameNo) -> bool
    ensures { result ≡ may_fail_partly script.now (reverse entries.now) frame.0 }
{
    !request_fault(script, frame) || is_stopped(entries, frame)
}

/// Whether the metadata's error of the frame meets the condition.
pub fn result_error_holds(
    condition: Condition,
    script: &Script,
    entries: &[Entry],
    frame: FrameNo,
) -> bool
    ensures { result ≡ result_error_holds condition script.now (reverse entries.now) frame.0 }
{
    match condition {
        Condition::ResultErrorBehindShutter => has_shutter(entries, frame),
        Condition::ResultErrorOfOpenMetadata => !is_metadata_ended(entries, frame),
        Condition::ResultErrorInOrder => earlier_metadata_ended(entries, frame),
        Condition::ResultErrorHasCause => result_fault(script, frame) || is_stopped(entries, frame),
        Condition::ResultErrorBehindSomething => {
            result_fault(script, frame) || has_something(entries, frame)
        }
        Condition::PartErrorOfStoppedRequest => may_fail_partly(script, entries, frame),
        _ => true,
    }
}

/// Whether the error of the frame's buffer for the stream meets the condition.
pub fn buffer_error_holds(
    condition: Condition,
    script: &Script,
    entries: &[Entry],
    frame: FrameNo,
    stream: StreamIx,
) -> bool
    ensures { result ≡ buffer_error_holds condition script.now (reverse entries.now) frame.0 stream.0 }
{
    match condition {
        Condition::BufferErrorOfTarget => has_target(entries, frame, stream),
        Condition::BufferErrorBehindShutter => has_shutter(entries, frame),
        Condition::BufferErrorWithoutRequestError => !has_error_request(entries, frame),
        Condition::BufferErrorToldOnce => !has_error_buffer(entries, frame, stream),
        Condition::BufferErrorOfMissingBuffer => !is_returned(entries, frame, stream),
        Condition::BufferErrorHasCause => {
            buffer_fault(script, frame, stream) || is_stopped(entries, frame)
        }
        Condition::BufferErrorBehindSomething => {
            buffer_fault(script, frame, stream) || has_something(entries, frame)
        }
        Condition::PartErrorOfStoppedRequest => may_fail_partly(script, entries, frame),
        _ => true,
    }
}

/// Whether the device's error meets the condition.
pub fn device_error_holds(condition: Condition, script: &Script, entries: &[Entry]) -> bool
    ensures { result ≡ device_error_holds condition script.now (reverse entries.now) }
{
    match condition {
        Condition::DeviceErrorNothingStops => !is_stopping(entries),
        Condition::DeviceErrorAtFault => fails_at_a_frame(script, entries),
        _ => true,
    }
}
