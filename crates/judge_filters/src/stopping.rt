//! Whether the service or a frame is stopped.
ghost use Rattle.std.specs.Prelude.{◌≡◌, reverse};
ghost use Rattle.trace_model.specs.Stopping.{has_failed, is_stopping, is_stopped};

use crate::call::begun;
use crate::wanted::{Wanted, stands};
use cam_types::FrameNo;
use judge_entries::entry::{is_stop, is_stop_word, sends};
use trace_model::Entry;

/// Whether the device failed.
pub fn has_failed(entries: &[Entry]) -> bool
    ensures { result ≡ has_failed (reverse entries.now) }
{
    stands(entries, Wanted::ErrorDevice)
}

/// Whether a flush or a disconnect has begun and isn't answered, or the device failed.
pub fn is_stopping(entries: &[Entry]) -> bool
    ensures { result ≡ is_stopping (reverse entries.now) }
{
    let stops = match begun(entries) {
        Some(word) => is_stop_word(word),
        None => false,
    };
    stops || has_failed(entries)
}

/// Whether a flush or a disconnect began, or the device failed, after the frame was sent.
pub fn is_stopped(entries: &[Entry], frame: FrameNo) -> bool
    ensures { result ≡ is_stopped frame.0 (reverse entries.now) }
{
    let mut sent = false;
    let mut stopped = false;
    for entry in entries {
        stopped = (is_stop(entry) && sent) || stopped;
        sent = sends(entry, frame) || sent;
    }
    stopped
}
