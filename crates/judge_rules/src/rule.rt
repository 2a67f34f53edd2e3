//! Whether an entry of a kind is allowed after the entries before it: all kinds but calls and sends, and of a filled
//! buffer and of the signal of a device fence all but the digest.
ghost use Rattle.std.specs.Prelude.{◌≡◌, ◌↔◌, ◌==◌, ◌&&◌, ◌+◌, ℕ, List, reverse, IsTrue};
ghost use Rattle.cam_types.specs.declared.script.Script.{Script as SomeScript};
ghost use Rattle.trace_model.specs.Allowed.{IsAllowed};
ghost use Rattle.trace_model.specs.Numbers.{next_early};
ghost use Rattle.trace_model.specs.Partial.{partial_count};
ghost use Rattle.trace_model.specs.Picture.{digest_of};
ghost use Rattle.judge_rules.specs.Fills.{is_digest_in};

use crate::buffer::{failed_due, releases, signals_next};
use crate::client::begin_due;
use crate::error::{may_fail_buffer, may_fail_device, may_fail_request, may_fail_result};
use crate::filled::{delivers, fills_late};
use crate::queued::is_named;
use crate::result_metadata::part_numbered;
use crate::same::is_due;
use crate::sensor::exposes;
use cam_types::{
    BufferId, DeviceFenceNo, FenceNo, FrameNo, PartialResult, RequestId, Script, StreamIx, Word,
};
use judge_entries::number::{next_early, partial_count};
use judge_filters::queue::first_queued;
use judge_filters::stopping::is_stopping;
use trace_model::Entry;

/// Whether the number is that of the frame's next partial result.
fn is_next_part(entries: &[Entry], frame: FrameNo, number: u8) -> bool
    ensures { result ≡ (partial_count frame.0 (reverse entries.now) + 1 == number) }
{
    partial_count(entries, frame) as u128 + 1 == number as u128
}

/// Whether the begin of a command with the word is due.
pub fn is_begin_due(script: &Script, entries: &[Entry], word: Word) -> bool
    ensures { IsTrue result ↔ IsAllowed script.now (reverse entries.now) (Entry.Begin word) }
{
    is_due(begin_due(script, entries), Entry::Begin { word })
}

/// Whether the drop of the item under the number is due.
pub fn is_dropped_due(
    script: &Script,
    entries: &[Entry],
    frame: FrameNo,
    request: RequestId,
    item: u32,
) -> bool
    ensures { IsTrue result ↔ IsAllowed script.now (reverse entries.now) (Entry.Dropped frame request item) }
{
    is_stopping(entries) && is_named(entries, first_queued(script, entries), frame, request, item)
}

/// Whether the shutter of the frame at the time is due.
pub fn is_shutter_due(script: &Script, entries: &[Entry], frame: FrameNo, time: u64) -> bool
    ensures { IsTrue result ↔ IsAllowed script.now (reverse entries.now) (Entry.Shutter frame time) }
{
    exposes(script, entries, frame, time)
}

/// Whether the partial result of the frame is due, with the number and the part.
pub fn is_partial_due(
    script: &Script,
    entries: &[Entry],
    frame: FrameNo,
    number: u8,
    part: PartialResult,
) -> bool
    ensures { IsTrue result ↔ IsAllowed script.now (reverse entries.now) (Entry.Partial frame number part) }
{
    is_next_part(entries, frame, number)
        && is_due(
            part_numbered(script, entries, frame, number),
            Entry::Partial {
                frame,
                number,
                part,
            },
        )
}

/// Whether the buffer is due back with its picture and the fence: with the picture's digest, and with no other one.
pub fn is_fill_due(
    script: &Script,
    entries: &[Entry],
    frame: FrameNo,
    stream: StreamIx,
    buffer: BufferId,
    fence: Option<FenceNo>,
) -> bool
    ensures { (digest : List ℕ) →
        ((IsTrue result × (digest ≡ digest_of script.now (reverse entries.now) frame.0 stream.0)) ↔
        IsAllowed script.now (reverse entries.now) (Entry.Filled frame stream buffer fence digest)) }
{
    fence.is_none() && delivers(script, entries, frame, stream, buffer)
}

/// Whether the script has early returns, and the device fence is the next.
fn is_next_early(script: &Script, entries: &[Entry], fence: DeviceFenceNo) -> bool
    ensures { result ≡ (script.now.early && (next_early (reverse entries.now) == fence.0)) }
{
    script.early && next_early(entries) == fence.0 as usize
}

/// Whether the buffer is due back early, with the device fence.
pub fn is_early_due(
    script: &Script,
    entries: &[Entry],
    frame: FrameNo,
    stream: StreamIx,
    buffer: BufferId,
    fence: DeviceFenceNo,
) -> bool
    ensures { IsTrue result ↔ IsAllowed script.now (reverse entries.now) (Entry.Early frame stream buffer fence) }
{
    is_next_early(script, entries, fence) && delivers(script, entries, frame, stream, buffer)
}

/// The frame and the stream whose picture is due with the signal of the device fence: with the picture's digest, and
/// with no other one. None where the signal isn't due with any.
pub fn late_due(entries: &[Entry], fence: DeviceFenceNo) -> Option<(FrameNo, StreamIx)>
    ensures { (script : SomeScript) (digest : List ℕ) →
        (is_digest_in script (reverse entries.now) result digest ↔
        IsAllowed script (reverse entries.now) (Entry.Late fence digest)) }
{
    fills_late(entries, fence)
}

/// Whether the buffer is due back in error, with the fence.
pub fn is_failed_due(
    entries: &[Entry],
    frame: FrameNo,
    stream: StreamIx,
    buffer: BufferId,
    fence: Option<FenceNo>,
) -> bool
    ensures { (script : SomeScript) →
        (IsTrue result ↔ IsAllowed script (reverse entries.now) (Entry.Failed frame stream buffer fence)) }
{
    is_due(
        failed_due(entries, frame, stream),
        Entry::Failed {
            frame,
            stream,
            buffer,
            fence,
        },
    )
}

/// Whether it is due that the capture of the frame failed whole.
pub fn is_error_request_due(script: &Script, entries: &[Entry], frame: FrameNo) -> bool
    ensures { IsTrue result ↔ IsAllowed script.now (reverse entries.now) (Entry.ErrorRequest frame) }
{
    may_fail_request(script, entries, frame)
}

/// Whether it is due that metadata of the frame is missing.
pub fn is_error_result_due(script: &Script, entries: &[Entry], frame: FrameNo) -> bool
    ensures { IsTrue result ↔ IsAllowed script.now (reverse entries.now) (Entry.ErrorResult frame) }
{
    may_fail_result(script, entries, frame)
}

/// Whether it is due that the frame's buffer for the stream won't be filled.
pub fn is_error_buffer_due(
    script: &Script,
    entries: &[Entry],
    frame: FrameNo,
    stream: StreamIx,
) -> bool
    ensures { IsTrue result ↔ IsAllowed script.now (reverse entries.now) (Entry.ErrorBuffer frame stream) }
{
    may_fail_buffer(script, entries, frame, stream)
}

/// Whether it is due that the device failed.
pub fn is_error_device_due(script: &Script, entries: &[Entry]) -> bool
    ensures { IsTrue result ↔ IsAllowed script.now (reverse entries.now) Entry.ErrorDevice }
{
    may_fail_device(script, entries)
}

/// Whether the release of the buffer with the fence is due.
pub fn is_release_due(entries: &[Entry], buffer: BufferId, fence: FenceNo) -> bool
    ensures { (script : SomeScript) →
        (IsTrue result ↔ IsAllowed script (reverse entries.now) (Entry.Release buffer fence)) }
{
    releases(entries, buffer, fence)
}

/// Whether the signal of the fence is due.
pub fn is_signal_due(entries: &[Entry], fence: FenceNo) -> bool
    ensures { (script : SomeScript) → (IsTrue result ↔ IsAllowed script (reverse entries.now) (Entry.Signal fence)) }
{
    signals_next(entries, fence)
}
