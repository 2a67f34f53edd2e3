//! When a buffer may come back in error, and when the client gives one back and signals its fence.
ghost use Rattle.std.specs.Prelude.{◌≡◌, reverse};
ghost use Rattle.trace_model.specs.Errors.{fence_left, failed_of, failed_due};
ghost use Rattle.judge_rules.specs.Rules.{releases, signals_next};

use cam_types::{BufferId, FenceNo, FrameNo, StreamIx};
use judge_entries::number::next_fence;
use judge_filters::fence::{early_fence_of, is_passed, is_signalled, is_there};
use judge_filters::frame::{has_error_request, target_of};
use judge_filters::open::has_error_buffer;
use judge_filters::place::{is_at_client, is_at_device_by};
use trace_model::{Entry, Sent};

/// The fence of a failed buffer: the acquire fence, if nobody waited for it yet.
pub fn fence_left(entries: &[Entry], fence: Option<FenceNo>) -> Option<FenceNo>
    ensures { result ≡ fence_left fence (reverse entries.now) }
{
    if is_passed(entries, fence) {
        None
    } else {
        fence
    }
}

/// The failed buffer of a frame's target for the stream that is due.
fn failed_of(
    entries: &[Entry],
    frame: FrameNo,
    stream: StreamIx,
    target: Option<Sent>,
) -> Option<Entry>
    ensures { result ≡ failed_of (reverse entries.now) frame.0 stream.0 target }
{
    match target {
        Some(sent) => {
            if is_at_device_by(entries, frame, stream, sent.buffer)
                && (has_error_request(entries, frame) || has_error_buffer(entries, frame, stream))
            {
                Some(Entry::Failed {
                    frame,
                    stream,
                    buffer: sent.buffer,
                    fence: fence_left(entries, sent.fence),
                })
            } else {
                None
            }
        }
        None => None,
    }
}

/// The failed buffer of the frame for the stream that is due.
pub fn failed_due(entries: &[Entry], frame: FrameNo, stream: StreamIx) -> Option<Entry>
    ensures { result ≡ failed_due (reverse entries.now) frame.0 stream.0 }
{
    failed_of(entries, frame, stream, target_of(entries, frame, stream))
}

/// Whether the release of the buffer with the fence is due.
pub fn releases(entries: &[Entry], buffer: BufferId, fence: FenceNo) -> bool
    ensures { result ≡ releases (reverse entries.now) buffer.0 fence.0 }
{
    (is_at_client(entries, u64::from(buffer.0))
        && is_there(entries, early_fence_of(entries, buffer)))
        && next_fence(entries) == fence.0 as usize
}

/// Whether the signal of the fence is due.
pub fn signals_next(entries: &[Entry], fence: FenceNo) -> bool
    ensures { result ≡ signals_next (reverse entries.now) fence.0 }
{
    (fence.0 as usize) < next_fence(entries) && !is_signalled(entries, fence)
}
