//! Where a buffer is, by the last entry that names it.
ghost use Rattle.std.specs.Prelude.{◌≡◌, reverse, option_copied};
ghost use Rattle.trace_model.specs.Place.{Pool, Device, Client, last_naming, place, is_at, is_at_device_by};

use cam_types::{BufferId, FrameNo, StreamIx};
use judge_entries::target::{names, sends_with};
use trace_model::Entry;

/// The last entry that names the buffer of the number.
pub fn last_naming(entries: &[Entry], number: u64) -> Option<&Entry>
    ensures { option_copied result ≡ last_naming number (reverse entries.now) }
{
    entries.iter().rev().find(|entry| names(entry, number))
}

/// Whether the buffer of the number is in the pool.
pub fn is_in_pool(entries: &[Entry], number: u64) -> bool
    ensures { result ≡ is_at (place number (reverse entries.now)) Pool }
{
    !matches!(
        last_naming(entries, number),
        Some(Entry::Send { .. }) | Some(Entry::Filled { .. }) | Some(Entry::Early { .. })
    )
}

/// Whether the buffer of the number is at the device.
pub fn is_at_device(entries: &[Entry], number: u64) -> bool
    ensures { result ≡ is_at (place number (reverse entries.now)) Device }
{
    matches!(last_naming(entries, number), Some(Entry::Send { .. }))
}

/// Whether the client has the buffer of the number.
pub fn is_at_client(entries: &[Entry], number: u64) -> bool
    ensures { result ≡ is_at (place number (reverse entries.now)) Client }
{
    matches!(
        last_naming(entries, number),
        Some(Entry::Filled { .. }) | Some(Entry::Early { .. })
    )
}

/// Whether the buffer is at the device by the send of the frame, for the stream.
pub fn is_at_device_by(
    entries: &[Entry],
    frame: FrameNo,
    stream: StreamIx,
    buffer: BufferId,
) -> bool
    ensures { result ≡ is_at_device_by frame.0 stream.0 buffer.0 (reverse entries.now) }
{
    let last = last_naming(entries, u64::from(buffer.0));
    sends_with(last, frame, stream, buffer)
}
