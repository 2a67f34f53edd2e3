//! What two entries have in common.
ghost use Rattle.std.specs.Prelude.{◌≡◌, option_to_list};
ghost use Rattle.rule_conditions.specs.Mentions.{frame_of, shares_buffer, shares_fence, shares_frame, shares_item};
ghost use Rattle.std.specs.List.{list_any};
ghost use Rattle.cam_types.specs.Four.{four_list};
ghost use Rattle.trace_model.specs.Entry.{names, releases_fence};

use cam_types::{FenceNo, Four, FrameNo};
use judge_entries::entry::{is_early_with, is_late_with, signals, submits, takes};
use judge_entries::target::names;
use trace_model::{Entry, Sent};

/// The frame of an entry that has one.
fn frame_of(entry: &Entry) -> Option<FrameNo>
    ensures { result ≡ frame_of entry.now }
{
    match *entry {
        Entry::Send { frame, .. }
        | Entry::Dropped { frame, .. }
        | Entry::Shutter { frame, .. }
        | Entry::Partial { frame, .. }
        | Entry::Filled { frame, .. }
        | Entry::Failed { frame, .. }
        | Entry::Early { frame, .. }
        | Entry::ErrorRequest { frame }
        | Entry::ErrorResult { frame }
        | Entry::ErrorBuffer { frame, .. } => Some(frame),
        _ => None,
    }
}

/// Whether the entries are of one frame.
pub fn shares_frame(faulty: &Entry, entry: &Entry) -> bool
    ensures { result ≡ shares_frame faulty.now entry.now }
{
    match (frame_of(faulty), frame_of(entry)) {
        (Some(frame), Some(of)) => of.0 == frame.0,
        _ => false,
    }
}

/// Whether the entry names the buffer of the target, if there is one.
fn names_buffer(entry: &Entry, target: Option<Sent>) -> bool
    ensures { result ≡ list_any (λ t. names t.buffer.0 entry.now) (option_to_list target) }
{
    match target {
        Some(sent) => names(entry, u64::from(sent.buffer.0)),
        None => false,
    }
}

/// Whether the entry names the buffer of a target.
#[tactic(auto, using(judge_entries::proofs::General::four_any))]
fn names_target(entry: &Entry, targets: &Four<Sent>) -> bool
    ensures { result ≡ list_any (λ t. names t.buffer.0 entry.now) (four_list targets.now) }
{
    names_buffer(entry, targets.a)
        || (names_buffer(entry, targets.b)
            || (names_buffer(entry, targets.c) || names_buffer(entry, targets.d)))
}

/// Whether the second entry names a buffer of the first.
pub fn shares_buffer(faulty: &Entry, entry: &Entry) -> bool
    ensures { result ≡ shares_buffer faulty.now entry.now }
{
    match faulty {
        Entry::Send { targets, .. } => names_target(entry, targets),
        Entry::Filled { buffer, .. }
        | Entry::Failed { buffer, .. }
        | Entry::Early { buffer, .. }
        | Entry::Release { buffer, .. } => names(entry, u64::from(buffer.0)),
        _ => false,
    }
}

/// Whether the second entry accepted the request of the first, or takes its item.
pub fn shares_item(faulty: &Entry, entry: &Entry) -> bool
    ensures { result ≡ shares_item faulty.now entry.now }
{
    match faulty {
        Entry::Send { request, item, .. } | Entry::Dropped { request, item, .. } => submits(
            entry, *request,
        ) || takes(entry, *request, *item),
        _ => false,
    }
}

/// Whether the entry releases the fence.
fn releases_fence(entry: &Entry, fence: FenceNo) -> bool
    ensures { result ≡ releases_fence fence.0 entry.now }
{
    matches!(entry, Entry::Release { fence: released, .. } if released.0 == fence.0)
}

/// Whether the second entry releases, gives or signals the fence of the first.
pub fn shares_fence(faulty: &Entry, entry: &Entry) -> bool
    ensures { result ≡ shares_fence faulty.now entry.now }
{
    match faulty {
        Entry::Signal { fence } => releases_fence(entry, *fence) || signals(entry, *fence),
        Entry::Late { fence, .. } => is_early_with(entry, *fence) || is_late_with(entry, *fence),
        _ => false,
    }
}
