//! Fences: who uses a buffer next waits for the fence that came with it.
ghost use Rattle.std.specs.Prelude.{◌≡◌, find, option_copied, reverse};
ghost use Rattle.trace_model.specs.Entry.{is_early_with};
ghost use Rattle.trace_model.specs.Fence.{fence_of, is_signalled, is_passed, early_fence_of, is_late, is_there, is_same_fence};

use crate::place::last_naming;
use crate::wanted::{Wanted, last, stands};
use cam_types::{BufferId, DeviceFenceNo, FenceNo};
use trace_model::Entry;

/// The fence of a buffer at home: of its release, or the one with which it failed.
pub fn fence_of(entries: &[Entry], buffer: BufferId) -> Option<FenceNo>
    ensures { result ≡ fence_of buffer.0 (reverse entries.now) }
{
    match last_naming(entries, u64::from(buffer.0)) {
        Some(Entry::Release { fence, .. }) => Some(*fence),
        Some(Entry::Failed { fence, .. }) => *fence,
        _ => None,
    }
}

/// Whether the fence is signalled.
pub fn is_signalled(entries: &[Entry], fence: FenceNo) -> bool
    ensures { result ≡ is_signalled fence.0 (reverse entries.now) }
{
    stands(entries, Wanted::Signal(fence))
}

/// Whether there is no fence to wait for, or it is signalled.
pub fn is_passed(entries: &[Entry], fence: Option<FenceNo>) -> bool
    ensures { result ≡ is_passed fence (reverse entries.now) }
{
    match fence {
        None => true,
        Some(fence) => is_signalled(entries, fence),
    }
}

/// The device fence of a buffer that went to the client early.
pub fn early_fence_of(entries: &[Entry], buffer: BufferId) -> Option<DeviceFenceNo>
    ensures { result ≡ early_fence_of buffer.0 (reverse entries.now) }
{
    match last_naming(entries, u64::from(buffer.0)) {
        Some(Entry::Early { fence, .. }) => Some(*fence),
        _ => None,
    }
}

/// Whether the device fence is signalled: the picture of its early return is there.
pub fn is_late(entries: &[Entry], fence: DeviceFenceNo) -> bool
    ensures { result ≡ is_late fence.0 (reverse entries.now) }
{
    stands(entries, Wanted::LateWith(fence))
}

/// The entry by which a buffer came back early with the device fence.
pub fn early_return(entries: &[Entry], fence: DeviceFenceNo) -> Option<&Entry>
    ensures { option_copied result ≡ find (is_early_with fence.0) (reverse entries.now) }
{
    last(entries, Wanted::EarlyWith(fence))
}

/// Whether there is no device fence to wait for, or it is signalled.
pub fn is_there(entries: &[Entry], fence: Option<DeviceFenceNo>) -> bool
    ensures { result ≡ is_there fence (reverse entries.now) }
{
    match fence {
        None => true,
        Some(fence) => is_late(entries, fence),
    }
}

/// Whether the two are the same fence, or both none.
pub fn is_same_fence(a: Option<FenceNo>, b: Option<FenceNo>) -> bool
    ensures { result ≡ is_same_fence a b }
{
    match (a, b) {
        (None, None) => true,
        (Some(a), Some(b)) => a.0 == b.0,
        _ => false,
    }
}
