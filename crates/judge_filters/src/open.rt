//! When the device is done with a frame.
ghost use Rattle.std.specs.Prelude.{◌≡◌, not, reverse, count_by, option_to_list};
ghost use Rattle.std.specs.List.{list_all, list_any};
ghost use Rattle.judge_filters.specs.Past.{on_send, at_send, on_early};
ghost use Rattle.trace_model.specs.Fence.{is_late};
ghost use Rattle.trace_model.specs.Open.{has_part, has_error_result, has_error_buffer, is_metadata_ended, is_returned};
ghost use Rattle.trace_model.specs.Open.{is_settled, all_settled, is_open, is_done, open_count, is_quiet, has_something};

use crate::fence::is_late;
use crate::frame::{has_error, has_error_request, is_sent, targets_of};
use crate::wanted::{Wanted, stands};
use cam_types::{FrameNo, StreamIx};
use trace_model::{Entry, Sent};

/// Whether the frame's partial result of the number came.
pub fn has_part(entries: &[Entry], frame: FrameNo, number: u8) -> bool
    ensures { result ≡ has_part frame.0 number (reverse entries.now) }
{
    stands(entries, Wanted::Part(frame, number))
}

/// Whether it is announced that metadata of the frame is missing.
pub fn has_error_result(entries: &[Entry], frame: FrameNo) -> bool
    ensures { result ≡ has_error_result frame.0 (reverse entries.now) }
{
    stands(entries, Wanted::ErrorResult(frame))
}

/// Whether it is announced that the frame's buffer for the stream won't be filled.
pub fn has_error_buffer(entries: &[Entry], frame: FrameNo, stream: StreamIx) -> bool
    ensures { result ≡ has_error_buffer frame.0 stream.0 (reverse entries.now) }
{
    stands(entries, Wanted::ErrorBuffer(frame, stream))
}

/// Whether the metadata of the frame ended.
pub fn is_metadata_ended(entries: &[Entry], frame: FrameNo) -> bool
    ensures { result ≡ is_metadata_ended frame.0 (reverse entries.now) }
{
    has_part(entries, frame, 3)
        || (has_error_result(entries, frame) || has_error_request(entries, frame))
}

/// Whether the frame's buffer for the stream came back, filled, failed or early.
pub fn is_returned(entries: &[Entry], frame: FrameNo, stream: StreamIx) -> bool
    ensures { result ≡ is_returned frame.0 stream.0 (reverse entries.now) }
{
    stands(entries, Wanted::Return(frame, stream))
}

/// Whether the entry gives the frame's buffer for the stream back early, with a device fence that is signalled.
fn is_early_and_there(entries: &[Entry], frame: FrameNo, stream: StreamIx, entry: &Entry) -> bool
    ensures { result ≡ on_early frame.0 stream.0 (λ d. is_late d (reverse entries.now)) entry.now }
{
    match entry {
        Entry::Early {
            frame: of,
            stream: on,
            fence,
            ..
        } => (of.0 == frame.0 && on.0 == stream.0) && is_late(entries, *fence),
        _ => false,
    }
}

/// Whether the frame's buffer for the stream came back early, and its device fence is signalled.
fn is_filled_late(entries: &[Entry], frame: FrameNo, stream: StreamIx) -> bool
    ensures { result ≡
        list_any (on_early frame.0 stream.0 (λ d. is_late d (reverse entries.now))) (reverse entries.now) }
{
    entries
        .iter()
        .rev()
        .any(|entry| is_early_and_there(entries, frame, stream, entry))
}

/// Whether the device is done with the frame's buffer for the stream.
#[tactic(auto, using(crate::proofs::FrameLemmas::fences_any))]
pub fn is_settled(entries: &[Entry], frame: FrameNo, stream: StreamIx) -> bool
    ensures { result ≡ is_settled frame.0 stream.0 (reverse entries.now) }
{
    stands(entries, Wanted::Bringing(frame, stream)) || is_filled_late(entries, frame, stream)
}

fn is_target_settled(entries: &[Entry], frame: FrameNo, target: Option<Sent>) -> bool
    ensures { result ≡ list_all (λ t. is_settled frame.0 t.stream.0 (reverse entries.now)) (option_to_list target) }
{
    match target {
        Some(sent) => is_settled(entries, frame, sent.stream),
        None => true,
    }
}

/// Whether the device is done with every buffer of the frame.
#[tactic(auto, using(judge_entries::proofs::General::four_all))]
pub fn all_settled(entries: &[Entry], frame: FrameNo) -> bool
    ensures { result ≡ all_settled frame.0 (reverse entries.now) }
{
    let targets = targets_of(entries, frame);
    is_target_settled(entries, frame, targets.a)
        && (is_target_settled(entries, frame, targets.b)
            && (is_target_settled(entries, frame, targets.c)
                && is_target_settled(entries, frame, targets.d)))
}

/// Whether the frame is open: it was sent, and its metadata hasn't ended or the device isn't done with a buffer of it.
pub fn is_open(entries: &[Entry], frame: FrameNo) -> bool
    ensures { result ≡ is_open frame.0 (reverse entries.now) }
{
    is_sent(entries, frame) && !(is_metadata_ended(entries, frame) && all_settled(entries, frame))
}

/// Whether the frame was open and isn't any more.
pub fn is_done(entries: &[Entry], frame: FrameNo) -> bool
    ensures { result ≡ is_done frame.0 (reverse entries.now) }
{
    is_sent(entries, frame) && (is_metadata_ended(entries, frame) && all_settled(entries, frame))
}

/// Whether the entry sends a frame that is open.
fn sends_open(entries: &[Entry], entry: &Entry) -> bool
    ensures { result ≡ on_send (λ n. is_open n (reverse entries.now)) entry.now }
{
    match entry {
        Entry::Send { frame, .. } => is_open(entries, *frame),
        _ => false,
    }
}

fn count_sends_open(entries: &[Entry]) -> usize
    ensures { result ≡ count_by (on_send (λ n. is_open n (reverse entries.now))) (reverse entries.now) }
{
    let mut count = 0;
    for entry in entries {
        if sends_open(entries, entry) {
            count += 1;
        }
    }
    count
}

/// How many frames are open.
#[tactic(auto, using(crate::proofs::FrameLemmas::frames_count))]
pub fn open_count(entries: &[Entry]) -> usize
    ensures { result ≡ open_count (reverse entries.now) }
{
    count_sends_open(entries)
}

/// Whether the entry sends no frame that is open.
fn sends_none_open(entries: &[Entry], entry: &Entry) -> bool
    ensures { result ≡ at_send (λ n. not (is_open n (reverse entries.now))) entry.now }
{
    match entry {
        Entry::Send { frame, .. } => !is_open(entries, *frame),
        _ => true,
    }
}

fn no_send_open(entries: &[Entry]) -> bool
    ensures { result ≡ list_all (at_send (λ n. not (is_open n (reverse entries.now)))) (reverse entries.now) }
{
    entries
        .iter()
        .rev()
        .all(|entry| sends_none_open(entries, entry))
}

/// Whether no frame is open.
#[tactic(auto, using(crate::proofs::FrameLemmas::frames_all))]
pub fn is_quiet(entries: &[Entry]) -> bool
    ensures { result ≡ is_quiet (reverse entries.now) }
{
    no_send_open(entries)
}

/// Whether a partial result, a buffer or an error of the frame stands.
pub fn has_something(entries: &[Entry], frame: FrameNo) -> bool
    ensures { result ≡ has_something frame.0 (reverse entries.now) }
{
    stands(entries, Wanted::Partial(frame))
        || (stands(entries, Wanted::ReturnOf(frame)) || has_error(entries, frame))
}
