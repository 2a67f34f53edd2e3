//! What the past makes of an entry.
ghost use Rattle.std.specs.Prelude.{◌≡◌, option_to_list, reverse};
ghost use Rattle.std.specs.List.{list_any};
ghost use Rattle.cam_types.specs.Four.{four_list};
ghost use Rattle.rule_conditions.specs.Mentions.{fills_by, fills_one_of, fills_stream, is_at_client, is_before, keeps_back};
ghost use Rattle.rule_conditions.specs.Mentions.{is_open_in, is_unended, is_unexposed, sends_earlier, sends_where};

use crate::standing::{
    holds_back, is_open_in, is_unended, is_unexposed, is_with_client, is_with_device,
};
use cam_types::{Four, FrameNo};
use judge_entries::target::has_stream;
use trace_model::{Entry, Sent};

/// Whether the entry sends a frame that is open.
pub fn sends_open(entries: &[Entry], entry: &Entry) -> bool
    ensures { result ≡ sends_where (is_open_in (reverse entries.now)) entry.now }
{
    match entry {
        Entry::Send { frame, .. } => is_open_in(entries, *frame),
        _ => false,
    }
}

/// Whether the frame was sent before that of an entry which has to keep the order of frames.
fn is_before(frame: FrameNo, faulty: &Entry) -> bool
    ensures { result ≡ is_before frame.0 faulty.now }
{
    match faulty {
        Entry::Shutter { frame: of, .. }
        | Entry::Partial { frame: of, .. }
        | Entry::ErrorResult { frame: of }
        | Entry::Filled { frame: of, .. }
        | Entry::Early { frame: of, .. } => frame.0 < of.0,
        _ => false,
    }
}

/// Whether the second entry sends an earlier frame than that of the first, which has neither its shutter nor failed
/// whole.
pub fn sends_unexposed(entries: &[Entry], faulty: &Entry, entry: &Entry) -> bool
    ensures { result ≡ sends_earlier (is_unexposed (reverse entries.now)) faulty.now entry.now }
{
    match entry {
        Entry::Send { frame, .. } => is_before(*frame, faulty) && is_unexposed(entries, *frame),
        _ => false,
    }
}

/// Whether the second entry sends an earlier frame than that of the first, whose metadata hasn't ended.
pub fn sends_unended(entries: &[Entry], faulty: &Entry, entry: &Entry) -> bool
    ensures { result ≡ sends_earlier (is_unended (reverse entries.now)) faulty.now entry.now }
{
    match entry {
        Entry::Send { frame, .. } => is_before(*frame, faulty) && is_unended(entries, *frame),
        _ => false,
    }
}

/// Whether the frame keeps the buffer of a later one back.
fn keeps_back(entries: &[Entry], faulty: &Entry, frame: FrameNo) -> bool
    ensures { result ≡ keeps_back (reverse entries.now) faulty.now frame.0 }
{
    match faulty {
        Entry::Filled { stream, .. } | Entry::Early { stream, .. } => holds_back(
            entries, *stream, frame,
        ),
        _ => false,
    }
}

/// Whether the second entry sends an earlier frame than that of the first, which keeps its buffer back.
pub fn sends_holding(entries: &[Entry], faulty: &Entry, entry: &Entry) -> bool
    ensures { result ≡ sends_earlier (keeps_back (reverse entries.now) faulty.now) faulty.now entry.now }
{
    match entry {
        Entry::Send { frame, .. } => is_before(*frame, faulty)
            && keeps_back(entries, faulty, *frame),
        _ => false,
    }
}

/// Whether the buffer that was sent, if there is one, is at the device, for a stream of these targets.
fn fills_one(entries: &[Entry], targets: &Four<Sent>, sent: Option<Sent>) -> bool
    ensures { result ≡ list_any (fills_one_of (reverse entries.now) targets.now) (option_to_list sent) }
{
    match sent {
        Some(sent) => has_stream(targets, sent.stream) && is_with_device(entries, sent.buffer),
        None => false,
    }
}

/// Whether one of the others is at the device, for a stream of these targets.
#[tactic(auto, using(judge_entries::proofs::General::four_any))]
fn fills_targets(entries: &[Entry], targets: &Four<Sent>, others: &Four<Sent>) -> bool
    ensures { result ≡ list_any (fills_one_of (reverse entries.now) targets.now) (four_list others.now) }
{
    fills_one(entries, targets, others.a)
        || (fills_one(entries, targets, others.b)
            || (fills_one(entries, targets, others.c) || fills_one(entries, targets, others.d)))
}

/// Whether the entry sends a buffer that is at the device, for a stream of these targets.
fn fills_one_by(entries: &[Entry], targets: &Four<Sent>, entry: &Entry) -> bool
    ensures { result ≡ fills_by (reverse entries.now) targets.now entry.now }
{
    match entry {
        Entry::Send {
            targets: others,
            ..
        } => fills_targets(entries, targets, others),
        _ => false,
    }
}

/// Whether the second entry sends a buffer that is at the device, for a stream that the first sends one for too.
pub fn fills_stream(entries: &[Entry], faulty: &Entry, entry: &Entry) -> bool
    ensures { result ≡ fills_stream (reverse entries.now) faulty.now entry.now }
{
    match faulty {
        Entry::Send { targets, .. } => fills_one_by(entries, targets, entry),
        _ => false,
    }
}

/// Whether the entry gave the client a buffer that is there still.
pub fn gave_to_client(entries: &[Entry], entry: &Entry) -> bool
    ensures { result ≡ is_at_client (reverse entries.now) entry.now }
{
    match entry {
        Entry::Filled { buffer, .. } | Entry::Early { buffer, .. } => is_with_client(
            entries, *buffer,
        ),
        _ => false,
    }
}
