//! A buffer of an open frame.
ghost use Rattle.std.specs.Prelude.{◌≡◌, ◌==◌, ◌||◌, map, option_map, option_to_list, IsTrue};
ghost use Rattle.std.specs.List.{list_all, list_any};
ghost use Rattle.cam_types.specs.Four.{four_list};
ghost use Rattle.trace_laws.specs.Settled.{gives, has_fence, settles};
ghost use Rattle.state_facts.specs.FrameReadings.{is_pending};
ghost use Rattle.state_facts.specs.Row.{fresh_target, target_after};
ghost use Rattle.judge_rows.specs.Views.{given_of, is_free, as_target, as_targets};

use cam_types::{DeviceFenceNo, Four, FrameNo};
use judge_entries::entry::{brings, is_error_buffer, returns_target};
use trace_model::{Entry, Sent};

/// A buffer that an open frame was sent with: whether it came back or its error is announced, the device fence with
/// which it came back early, and whether the device is done with it.
#[derive(Clone, Copy)]
pub struct OpenTarget {
    pub sent: Sent,
    pub returned: bool,
    pub announced: bool,
    pub given: Option<DeviceFenceNo>,
    pub settled: bool,
}

/// The device fence of an early return, after an entry.
fn given_after(entry: &Entry, frame: FrameNo, target: OpenTarget) -> Option<DeviceFenceNo>
    requires { IsTrue (is_free entry.now frame.0 (as_target target)) }
    ensures { given_of result ≡ gives frame.0 target.sent.stream.0 entry.now (given_of target.given) }
{
    match entry {
        Entry::Early {
            frame: of,
            stream,
            fence,
            ..
        } => {
            if of.0 == frame.0 && stream.0 == target.sent.stream.0 {
                Some(*fence)
            } else {
                target.given
            }
        }
        _ => target.given,
    }
}

/// Whether the device fence is the one that was given.
fn is_given(given: Option<DeviceFenceNo>, fence: DeviceFenceNo) -> bool
    ensures { result ≡ has_fence fence.0 (given_of given) }
{
    match given {
        Some(given) => fence.0 == given.0,
        None => false,
    }
}

/// Whether the buffer came back early with the device fence, which isn't signalled.
pub fn is_pending(target: OpenTarget, fence: DeviceFenceNo) -> bool
    ensures { result ≡ is_pending fence.0 (as_target target) }
{
    is_given(target.given, fence) && !target.settled
}

fn is_pending_at(target: Option<OpenTarget>, fence: DeviceFenceNo) -> bool
    ensures { result ≡ list_any (is_pending fence.0) (option_to_list (option_map as_target target)) }
{
    match target {
        Some(target) => is_pending(target, fence),
        None => false,
    }
}

/// Whether a buffer waits for the device fence.
pub(crate) fn has_pending(targets: &Four<OpenTarget>, fence: DeviceFenceNo) -> bool
    ensures { result ≡ list_any (is_pending fence.0) (as_targets targets.now) }
{
    is_pending_at(targets.a, fence)
        || (is_pending_at(targets.b, fence)
            || (is_pending_at(targets.c, fence) || is_pending_at(targets.d, fence)))
}

/// Whether the device is done with the buffer by the entry.
fn settles(entry: &Entry, frame: FrameNo, target: OpenTarget) -> bool
    ensures { result ≡ settles frame.0 target.sent.stream.0 entry.now (given_of target.given) }
{
    match entry {
        Entry::Late { fence, .. } => is_given(target.given, *fence),
        _ => brings(entry, frame, target.sent.stream),
    }
}

/// The buffer after an entry, which gives it a device fence only where it has none.
pub(crate) fn note_target(entry: &Entry, frame: FrameNo, target: OpenTarget) -> OpenTarget
    requires { IsTrue (is_free entry.now frame.0 (as_target target)) }
    ensures { as_target result ≡ target_after frame.0 entry.now (as_target target) }
{
    let stream = target.sent.stream;
    OpenTarget {
        sent: target.sent,
        returned: returns_target(entry, frame, stream) || target.returned,
        announced: is_error_buffer(entry, frame, stream) || target.announced,
        given: given_after(entry, frame, target),
        settled: settles(entry, frame, target) || target.settled,
    }
}

fn note_target_at(entry: &Entry, frame: FrameNo, target: Option<OpenTarget>) -> Option<OpenTarget>
    requires { IsTrue (list_all (is_free entry.now frame.0) (option_to_list (option_map as_target target))) }
    ensures { option_map as_target result ≡ option_map (target_after frame.0 entry.now) (option_map as_target target) }
{
    match target {
        Some(target) => Some(note_target(entry, frame, target)),
        None => None,
    }
}

/// The buffers after an entry.
pub(crate) fn note_targets(
    entry: &Entry,
    frame: FrameNo,
    targets: Four<OpenTarget>,
) -> Four<OpenTarget>
    requires { IsTrue (list_all (is_free entry.now frame.0) (as_targets targets)) }
    ensures { as_targets result ≡ map (target_after frame.0 entry.now) (as_targets targets) }
{
    Four {
        a: note_target_at(entry, frame, targets.a),
        b: note_target_at(entry, frame, targets.b),
        c: note_target_at(entry, frame, targets.c),
        d: note_target_at(entry, frame, targets.d),
    }
}

fn is_back(target: Option<OpenTarget>) -> bool
    ensures { result ≡ list_all (λ s. s.settled) (option_to_list (option_map as_target target)) }
{
    match target {
        Some(target) => target.settled,
        None => true,
    }
}

/// Whether the device is done with each buffer.
#[tactic(auto, using(crate::proofs::TargetLemmas::all_four))]
pub(crate) fn are_back(targets: &Four<OpenTarget>) -> bool
    ensures { result ≡ list_all (λ s. s.settled) (as_targets targets.now) }
{
    is_back(targets.a) && (is_back(targets.b) && (is_back(targets.c) && is_back(targets.d)))
}

fn is_returned(target: Option<OpenTarget>) -> bool
    ensures { result ≡ list_any (λ t. t.returned) (option_to_list (option_map as_target target)) }
{
    match target {
        Some(target) => target.returned,
        None => false,
    }
}

/// Whether a buffer came back.
#[tactic(auto, using(crate::proofs::TargetLemmas::any_four))]
pub(crate) fn has_returned(targets: &Four<OpenTarget>) -> bool
    ensures { result ≡ list_any (λ t. t.returned) (as_targets targets.now) }
{
    is_returned(targets.a)
        || (is_returned(targets.b) || (is_returned(targets.c) || is_returned(targets.d)))
}

fn is_announced(target: Option<OpenTarget>) -> bool
    ensures { result ≡ list_any (λ t. t.announced) (option_to_list (option_map as_target target)) }
{
    match target {
        Some(target) => target.announced,
        None => false,
    }
}

/// Whether the error of a buffer is announced.
#[tactic(auto, using(crate::proofs::TargetLemmas::any_four))]
pub(crate) fn has_announced(targets: &Four<OpenTarget>) -> bool
    ensures { result ≡ list_any (λ t. t.announced) (as_targets targets.now) }
{
    is_announced(targets.a)
        || (is_announced(targets.b) || (is_announced(targets.c) || is_announced(targets.d)))
}

fn is_back_after(entry: &Entry, frame: FrameNo, target: Option<OpenTarget>) -> bool
    ensures { result ≡
        list_all (λ s. (target_after frame.0 entry.now s).settled) (option_to_list (option_map as_target target)) }
{
    match target {
        Some(target) => settles(entry, frame, target) || target.settled,
        None => true,
    }
}

/// Whether the device is done with each buffer after the entry.
pub(crate) fn are_back_after(entry: &Entry, frame: FrameNo, targets: &Four<OpenTarget>) -> bool
    ensures { result ≡ list_all (λ s. s.settled) (map (target_after frame.0 entry.now) (as_targets targets.now)) }
{
    is_back_after(entry, frame, targets.a)
        && (is_back_after(entry, frame, targets.b)
            && (is_back_after(entry, frame, targets.c) && is_back_after(entry, frame, targets.d)))
}

fn new_target(sent: Option<Sent>) -> Option<OpenTarget>
    ensures { option_map as_target result ≡ option_map fresh_target sent }
{
    match sent {
        Some(sent) => Some(OpenTarget {
            sent,
            returned: false,
            announced: false,
            given: None,
            settled: false,
        }),
        None => None,
    }
}

/// Buffers that were just sent.
#[tactic(auto, using(crate::proofs::TargetLemmas::new_four))]
pub(crate) fn new_targets(targets: &Four<Sent>) -> Four<OpenTarget>
    ensures { as_targets result ≡ map fresh_target (four_list targets.now) }
{
    Four {
        a: new_target(targets.a),
        b: new_target(targets.b),
        c: new_target(targets.c),
        d: new_target(targets.d),
    }
}
