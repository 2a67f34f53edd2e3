//! Whether a frame has ended in both cameras, and how.
ghost use Rattle.std.specs.Prelude.{◌≡◌, ◌&&◌, find, option_copied, option_to_list, reverse};
ghost use Rattle.std.specs.List.{list_all, list_any};
ghost use Rattle.std.specs.Option.{option_map};
ghost use Rattle.cam_types.specs.Four.{four_list};
ghost use Rattle.logical_call.specs.Pairing.{frame_after, pair_at, pair_between};
ghost use Rattle.logical_call.specs.Pairs.{all_filled, early_frame, fills, frame_of, is_dropped, is_ended, is_whole, pair_end};
ghost use Rattle.logical_call.specs.Taken.{drops};
ghost use Rattle.trace_model.specs.Entry.{is_early_with};

use crate::{PairEnd, Paired};
use cam_types::{DeviceFenceNo, Four, FrameNo, StreamIx};
use judge_filters::fence::early_return;
use judge_filters::frame::{is_sent, targets_of};
use judge_filters::open::{has_part, is_open};
use trace_model::{Entry, Sent};

/// Whether the entry drops an item under the frame's number.
fn drops(entry: &Entry, frame: FrameNo) -> bool
    ensures { result ≡ drops frame.0 entry.now }
{
    matches!(entry, Entry::Dropped { frame: dropped, .. } if dropped.0 == frame.0)
}

/// Whether an item was dropped under the frame's number.
fn is_dropped(entries: &[Entry], frame: FrameNo) -> bool
    ensures { result ≡ is_dropped frame.0 (reverse entries.now) }
{
    entries.iter().rev().any(|entry| drops(entry, frame))
}

/// Whether the frame ended.
fn is_ended(entries: &[Entry], frame: FrameNo) -> bool
    ensures { result ≡ is_ended frame.0 (reverse entries.now) }
{
    is_dropped(entries, frame) || (is_sent(entries, frame) && !is_open(entries, frame))
}

/// Whether the entry gives back the frame's buffer for the stream with its picture.
fn fills(entry: &Entry, frame: FrameNo, stream: StreamIx) -> bool
    ensures { result ≡ fills frame.0 stream.0 entry.now }
{
    matches!(
        entry,
        Entry::Filled { frame: of, stream: on, .. } if of.0 == frame.0 && on.0 == stream.0
    )
}

/// Whether the frame's buffer for the stream came back with its picture.
fn is_filled_for(entries: &[Entry], frame: FrameNo, stream: StreamIx) -> bool
    ensures { result ≡ list_any (fills frame.0 stream.0) (reverse entries.now) }
{
    entries
        .iter()
        .rev()
        .any(|entry| fills(entry, frame, stream))
}

/// Whether the buffer came back with its picture, if there is such a target.
fn is_filled(entries: &[Entry], frame: FrameNo, target: Option<Sent>) -> bool
    ensures { result ≡
        list_all (λ t. list_any (fills frame.0 t.stream.0) (reverse entries.now)) (option_to_list target) }
{
    match target {
        Some(sent) => is_filled_for(entries, frame, sent.stream),
        None => true,
    }
}

/// Whether all buffers of the frame came back with their pictures.
#[tactic(auto, using(judge_entries::proofs::General::four_all))]
fn all_filled(entries: &[Entry], frame: FrameNo) -> bool
    ensures { result ≡ all_filled frame.0 (reverse entries.now) }
{
    let targets = targets_of(entries, frame);
    is_filled(entries, frame, targets.a)
        && (is_filled(entries, frame, targets.b)
            && (is_filled(entries, frame, targets.c) && is_filled(entries, frame, targets.d)))
}

/// Whether the frame was captured whole.
fn is_whole(entries: &[Entry], frame: FrameNo) -> bool
    ensures { result ≡ is_whole frame.0 (reverse entries.now) }
{
    has_part(entries, frame, 3) && all_filled(entries, frame)
}

/// The frame of the buffer that came back early with the device fence.
fn early_frame(entries: &[Entry], fence: DeviceFenceNo) -> Option<FrameNo>
    ensures { option_map (λ frame. frame.0) result ≡ early_frame (find (is_early_with fence.0) (reverse entries.now)) }
{
    match early_return(entries, fence) {
        Some(Entry::Early { frame, .. }) => Some(*frame),
        _ => None,
    }
}

/// The one frame that the entry may end.
fn frame_of(entries: &[Entry], entry: &Entry) -> Option<FrameNo>
    ensures { option_map (λ frame. frame.0) result ≡ frame_of (reverse entries.now) entry.now }
{
    match entry {
        Entry::Dropped { frame, .. }
        | Entry::Partial { frame, .. }
        | Entry::Filled { frame, .. }
        | Entry::Failed { frame, .. }
        | Entry::ErrorRequest { frame }
        | Entry::ErrorResult { frame } => Some(*frame),
        Entry::Late { fence, .. } => early_frame(entries, *fence),
        _ => None,
    }
}

/// Whether the frame has ended in both.
fn have_ended(first: &[Entry], second: &[Entry], frame: FrameNo) -> bool
    ensures { result ≡ (is_ended frame.0 (reverse first.now) && is_ended frame.0 (reverse second.now)) }
{
    is_ended(first, frame) && is_ended(second, frame)
}

/// How the frame ended in both.
fn pair_end(first: &[Entry], second: &[Entry], frame: FrameNo) -> PairEnd
    ensures { result ≡ pair_end frame.0 (reverse first.now) (reverse second.now) }
{
    if is_whole(first, frame) && is_whole(second, frame) {
        PairEnd::Ok
    } else if is_dropped(first, frame) && is_dropped(second, frame) {
        PairEnd::Drop
    } else {
        PairEnd::Error
    }
}

/// The frame with its end.
fn paired(first: &[Entry], second: &[Entry], frame: FrameNo) -> Paired
    ensures { result ≡ pair_at (reverse first.now) (reverse second.now) frame }
{
    Paired {
        frame,
        end: pair_end(first, second, frame),
    }
}

/// The frame that has ended in the second of the two by an entry, if it ends one: `own` is the trace of the entry's
/// camera before it, and both cameras had the two traces before.
pub(crate) fn pair_after(
    entry: Option<Entry>,
    own: &[Entry],
    first_before: &[Entry],
    second_before: &[Entry],
    first: &[Entry],
    second: &[Entry],
) -> Option<Paired>
    ensures { result ≡ pair_between (reverse first_before.now) (reverse second_before.now) (reverse first.now) (reverse second.now)
        (frame_after (reverse own.now) entry) }
{
    let frame = frame_of(own, &entry?)?;
    if have_ended(first, second, frame) && !have_ended(first_before, second_before, frame) {
        Some(paired(first, second, frame))
    } else {
        None
    }
}
