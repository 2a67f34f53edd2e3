//! The buffer of an open frame for a stream, or the one that waits for a device fence.
ghost use Rattle.std.specs.Prelude.{◌≡◌, ◌==◌, ◌++◌, List, find, option_map, option_to_list};
ghost use Rattle.state_facts.specs.FrameReadings.{is_pending};
ghost use Rattle.state_facts.specs.Row.{Target as SomeTarget};
ghost use Rattle.judge_rows.specs.Views.{as_target, as_targets};

use cam_types::{DeviceFenceNo, Four, StreamIx};
use judge_rows::{OpenTarget, is_pending};

/// The buffer where it is for the stream, else what comes after it.
fn first_for(
    target: Option<OpenTarget>,
    stream: StreamIx,
    rest: Option<OpenTarget>,
) -> Option<OpenTarget>
    ensures { (targets : List SomeTarget) → option_map as_target rest ≡ find (λ t. t.sent.stream.0 == stream.0) targets →
        option_map as_target result ≡ find (λ t. t.sent.stream.0 == stream.0) (option_to_list (option_map as_target target) ++ targets) }
{
    match target {
        Some(found) => {
            if found.sent.stream.0 == stream.0 {
                target
            } else {
                rest
            }
        }
        None => rest,
    }
}

/// The buffer where it is for the stream.
fn only_for(target: Option<OpenTarget>, stream: StreamIx) -> Option<OpenTarget>
    ensures { option_map as_target result ≡ find (λ t. t.sent.stream.0 == stream.0) (option_to_list (option_map as_target target)) }
{
    match target {
        Some(found) => {
            if found.sent.stream.0 == stream.0 {
                target
            } else {
                None
            }
        }
        None => None,
    }
}

/// The frame's buffer for the stream.
pub fn target_for(targets: &Four<OpenTarget>, stream: StreamIx) -> Option<OpenTarget>
    ensures { option_map as_target result ≡ find (λ t. t.sent.stream.0 == stream.0) (as_targets targets.now) }
{
    let last = only_for(targets.d, stream);
    let third = first_for(targets.c, stream, last);
    let second = first_for(targets.b, stream, third);
    first_for(targets.a, stream, second)
}

/// The buffer where it waits for the device fence, else what comes after it.
fn first_with(
    target: Option<OpenTarget>,
    fence: DeviceFenceNo,
    rest: Option<OpenTarget>,
) -> Option<OpenTarget>
    ensures { (targets : List SomeTarget) → option_map as_target rest ≡ find (is_pending fence.0) targets →
        option_map as_target result ≡ find (is_pending fence.0) (option_to_list (option_map as_target target) ++ targets) }
{
    match target {
        Some(found) => {
            if is_pending(found, fence) {
                target
            } else {
                rest
            }
        }
        None => rest,
    }
}

/// The buffer where it waits for the device fence.
fn only_with(target: Option<OpenTarget>, fence: DeviceFenceNo) -> Option<OpenTarget>
    ensures { option_map as_target result ≡ find (is_pending fence.0) (option_to_list (option_map as_target target)) }
{
    match target {
        Some(found) => {
            if is_pending(found, fence) {
                target
            } else {
                None
            }
        }
        None => None,
    }
}

/// The frame's buffer that waits for the device fence.
pub fn pending_target(targets: &Four<OpenTarget>, fence: DeviceFenceNo) -> Option<OpenTarget>
    ensures { option_map as_target result ≡ find (is_pending fence.0) (as_targets targets.now) }
{
    let last = only_with(targets.d, fence);
    let third = first_with(targets.c, fence, last);
    let second = first_with(targets.b, fence, third);
    first_with(targets.a, fence, second)
}
