//! What an entry ends, by the entries before it.
ghost use Rattle.std.specs.Prelude.{◌≡◌, reverse, option_copied, find};
ghost use Rattle.trace_model.specs.Entry.{is_early_with};
ghost use Rattle.timeline_model.specs.Drawings.{since, since_seat, target_in, target_of};

use crate::Seat;
use cam_types::{DeviceFenceNo, FrameNo, StreamIx};
use judge_entries::entry::is_early_with;
use trace_model::Entry;

/// A frame's target.
#[derive(Clone, Copy)]
pub struct Target {
    pub frame: FrameNo,
    pub stream: StreamIx,
}

/// The entry with which a buffer came back early, with the device fence.
fn early_with(entries: &[Entry], fence: DeviceFenceNo) -> Option<&Entry>
    ensures { option_copied result ≡ find (is_early_with fence.0) (reverse entries.now) }
{
    entries
        .iter()
        .rev()
        .find(|entry| is_early_with(entry, fence))
}

/// The target of an early return.
fn target_of(entry: Option<&Entry>) -> Option<Target>
    ensures { result ≡ target_of (option_copied entry.entry) }
{
    match entry {
        Some(Entry::Early { frame, stream, .. }) => Some(Target {
            frame: *frame,
            stream: *stream,
        }),
        _ => None,
    }
}

/// The target whose buffer came back early with the device fence.
fn early_target(entries: &[Entry], fence: DeviceFenceNo) -> Option<Target>
    ensures { result ≡ target_of (find (is_early_with fence.0) (reverse entries.now)) }
{
    target_of(early_with(entries, fence))
}

/// The target that an entry speaks of.
pub fn target_in(entries: &[Entry], entry: &Entry) -> Option<Target>
    ensures { result ≡ target_in entry.now (reverse entries.now) }
{
    match *entry {
        Entry::Filled { frame, stream, .. } => Some(Target { frame, stream }),
        Entry::Failed { frame, stream, .. } => Some(Target { frame, stream }),
        Entry::Early { frame, stream, .. } => Some(Target { frame, stream }),
        Entry::ErrorBuffer { frame, stream } => Some(Target { frame, stream }),
        Entry::Late { fence, .. } => early_target(entries, fence),
        _ => None,
    }
}

fn since_seat(seat: Option<Seat>) -> Option<u32>
    ensures { result ≡ since_seat seat }
{
    match seat {
        Some(seat) => Some(seat.since),
        None => None,
    }
}

/// The place where what an entry ends began; `begun` is the place of the begin that has no call yet, `seat` that of the
/// target that it speaks of.
pub fn since(entry: &Entry, begun: Option<u32>, seat: Option<Seat>) -> Option<u32>
    ensures { result ≡ since entry.now begun seat }
{
    match *entry {
        Entry::Call { .. } => begun,
        Entry::Filled { .. } => since_seat(seat),
        Entry::Failed { .. } => since_seat(seat),
        Entry::Early { .. } => since_seat(seat),
        Entry::Late { .. } => since_seat(seat),
        _ => None,
    }
}
