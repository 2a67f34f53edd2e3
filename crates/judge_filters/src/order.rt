//! What holds of all frames that were sent under a smaller number.
ghost use Rattle.std.specs.Prelude.{◌≡◌, reverse};
ghost use Rattle.std.specs.List.{list_all};
ghost use Rattle.judge_filters.specs.Passed.{has_passed};
ghost use Rattle.judge_filters.specs.Past.{at_earlier, is_exposed};
ghost use Rattle.trace_model.specs.Filled.{lets_pass};
ghost use Rattle.trace_model.specs.Frames.{each_earlier};
ghost use Rattle.trace_model.specs.Open.{is_metadata_ended};

use crate::frame::{has_error_request, has_shutter, has_target};
use crate::open::{has_error_buffer, is_metadata_ended, is_returned};
use cam_types::{FrameNo, StreamIx};
use trace_model::Entry;

/// Whether the frame had its shutter or failed whole.
fn is_exposed(entries: &[Entry], frame: FrameNo) -> bool
    ensures { result ≡ is_exposed (reverse entries.now) frame.0 }
{
    has_shutter(entries, frame) || has_error_request(entries, frame)
}

/// Whether the frame doesn't hold later buffers of the stream back.
pub fn lets_pass(entries: &[Entry], stream: StreamIx, frame: FrameNo) -> bool
    ensures { result ≡ lets_pass (reverse entries.now) stream.0 frame.0 }
{
    !has_target(entries, frame, stream)
        || (is_returned(entries, frame, stream)
            || (has_error_buffer(entries, frame, stream) || has_error_request(entries, frame)))
}

/// What each earlier frame has to have done: it had its shutter or failed whole, its metadata ended, it doesn't hold
/// later buffers of the stream back.
#[derive(Clone, Copy)]
enum Passed {
    Exposure,
    Metadata,
    Buffers(StreamIx),
}

fn has_passed(entries: &[Entry], passed: Passed, frame: FrameNo) -> bool
    ensures { result ≡ has_passed (reverse entries.now) passed frame.0 }
{
    match passed {
        Passed::Exposure => is_exposed(entries, frame),
        Passed::Metadata => is_metadata_ended(entries, frame),
        Passed::Buffers(stream) => lets_pass(entries, stream, frame),
    }
}

fn has_passed_before(entries: &[Entry], passed: Passed, frame: FrameNo, entry: &Entry) -> bool
    ensures { result ≡ at_earlier frame.0 (has_passed (reverse entries.now) passed) entry.now }
{
    match entry {
        Entry::Send { frame: earlier, .. } => {
            frame.0 <= earlier.0 || has_passed(entries, passed, *earlier)
        }
        _ => true,
    }
}

fn all_passed_before(entries: &[Entry], passed: Passed, frame: FrameNo) -> bool
    ensures { result ≡ list_all (at_earlier frame.0 (has_passed (reverse entries.now) passed)) (reverse entries.now) }
{
    entries
        .iter()
        .rev()
        .all(|entry| has_passed_before(entries, passed, frame, entry))
}

/// Whether each earlier frame had its shutter or failed whole.
#[tactic(auto, using(crate::proofs::FrameLemmas::earlier_all))]
pub fn earlier_exposed(entries: &[Entry], frame: FrameNo) -> bool
    ensures { result ≡ each_earlier frame.0 (is_exposed (reverse entries.now)) (reverse entries.now) }
{
    all_passed_before(entries, Passed::Exposure, frame)
}

/// Whether each earlier frame's metadata ended.
#[tactic(auto, using(crate::proofs::FrameLemmas::earlier_all))]
pub fn earlier_metadata_ended(entries: &[Entry], frame: FrameNo) -> bool
    ensures { result ≡ each_earlier frame.0 (λ m. is_metadata_ended m (reverse entries.now)) (reverse entries.now) }
{
    all_passed_before(entries, Passed::Metadata, frame)
}

/// Whether no earlier frame holds back later buffers of the stream.
#[tactic(auto, using(crate::proofs::FrameLemmas::earlier_all))]
pub fn earlier_let_pass(entries: &[Entry], stream: StreamIx, frame: FrameNo) -> bool
    ensures { result ≡ each_earlier frame.0 (lets_pass (reverse entries.now) stream.0) (reverse entries.now) }
{
    all_passed_before(entries, Passed::Buffers(stream), frame)
}
