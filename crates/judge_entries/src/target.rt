//! The buffers that a frame is sent with.
ghost use Rattle.std.specs.Prelude.{◌≡◌, ◌==◌, ◌&&◌, ◌++◌, List, find, option_to_list, option_copied};
ghost use Rattle.std.specs.List.{list_any};
ghost use Rattle.cam_types.specs.Four.{four_list};
ghost use Rattle.trace_model.specs.Entry.{names};
ghost use Rattle.trace_model.specs.Place.{sends_with};
ghost use Rattle.trace_model.specs.declared.entry.Sent.{Sent as SomeSent};

use cam_types::{BufferId, Four, FrameNo, StreamIx};
use trace_model::{Entry, Sent};

fn is_buffer(target: Option<Sent>, number: u64) -> bool
    ensures { result ≡ list_any (λ t. t.buffer.0 == number) (option_to_list target) }
{
    matches!(target, Some(sent) if u64::from(sent.buffer.0) == number)
}

fn is_stream(target: Option<Sent>, stream: StreamIx) -> bool
    ensures { result ≡ list_any (λ t. t.stream.0 == stream.0) (option_to_list target) }
{
    matches!(target, Some(sent) if sent.stream.0 == stream.0)
}

fn is_both(target: Option<Sent>, stream: StreamIx, buffer: BufferId) -> bool
    ensures { result ≡ list_any (λ t. (t.stream.0 == stream.0) && (t.buffer.0 == buffer.0)) (option_to_list target) }
{
    match target {
        Some(sent) => sent.stream.0 == stream.0 && sent.buffer.0 == buffer.0,
        None => false,
    }
}

/// Whether the buffer of the number is among the targets.
#[tactic(auto, using(crate::proofs::General::four_any))]
fn has_buffer(targets: &Four<Sent>, number: u64) -> bool
    ensures { result ≡ list_any (λ t. t.buffer.0 == number) (four_list targets.now) }
{
    is_buffer(targets.a, number)
        || (is_buffer(targets.b, number)
            || (is_buffer(targets.c, number) || is_buffer(targets.d, number)))
}

/// Whether a target is for the stream.
#[tactic(auto, using(crate::proofs::General::four_any))]
pub fn has_stream(targets: &Four<Sent>, stream: StreamIx) -> bool
    ensures { result ≡ list_any (λ t. t.stream.0 == stream.0) (four_list targets.now) }
{
    is_stream(targets.a, stream)
        || (is_stream(targets.b, stream)
            || (is_stream(targets.c, stream) || is_stream(targets.d, stream)))
}

/// Whether the buffer is a target for the stream.
#[tactic(auto, using(crate::proofs::General::four_any))]
fn has_both(targets: &Four<Sent>, stream: StreamIx, buffer: BufferId) -> bool
    ensures { result ≡ list_any (λ t. (t.stream.0 == stream.0) && (t.buffer.0 == buffer.0)) (four_list targets.now) }
{
    is_both(targets.a, stream, buffer)
        || (is_both(targets.b, stream, buffer)
            || (is_both(targets.c, stream, buffer) || is_both(targets.d, stream, buffer)))
}

/// The target where it is for the stream, else what comes after it.
fn first_for(target: Option<Sent>, stream: StreamIx, rest: Option<Sent>) -> Option<Sent>
    ensures { (sents : List SomeSent) → rest ≡ find (λ t. t.stream.0 == stream.0) sents →
        result ≡ find (λ t. t.stream.0 == stream.0) (option_to_list target ++ sents) }
{
    match target {
        Some(sent) => {
            if sent.stream.0 == stream.0 {
                target
            } else {
                rest
            }
        }
        None => rest,
    }
}

/// The target where it is for the stream.
fn only_for(target: Option<Sent>, stream: StreamIx) -> Option<Sent>
    ensures { result ≡ find (λ t. t.stream.0 == stream.0) (option_to_list target) }
{
    match target {
        Some(sent) => {
            if sent.stream.0 == stream.0 {
                target
            } else {
                None
            }
        }
        None => None,
    }
}

/// The first target for the stream.
pub fn target_for(targets: &Four<Sent>, stream: StreamIx) -> Option<Sent>
    ensures { result ≡ find (λ t. t.stream.0 == stream.0) (four_list targets.now) }
{
    let last = only_for(targets.d, stream);
    let third = first_for(targets.c, stream, last);
    let second = first_for(targets.b, stream, third);
    first_for(targets.a, stream, second)
}

/// Whether the entry names the buffer of the number. (The buffers that a hostile trace makes may have numbers that no
/// entry can name.)
pub fn names(entry: &Entry, number: u64) -> bool
    ensures { result ≡ names number entry.now }
{
    match entry {
        Entry::Send { targets, .. } => has_buffer(targets, number),
        Entry::Filled { buffer, .. }
        | Entry::Failed { buffer, .. }
        | Entry::Release { buffer, .. }
        | Entry::Early { buffer, .. } => u64::from(buffer.0) == number,
        _ => false,
    }
}

/// Whether the entry sends the frame with the buffer for the stream.
pub fn sends_with(entry: Option<&Entry>, frame: FrameNo, stream: StreamIx, buffer: BufferId) -> bool
    ensures { result ≡ sends_with frame.0 stream.0 buffer.0 (option_copied entry.entry) }
{
    match entry {
        Some(
            Entry::Send {
                frame: sent,
                targets,
                ..
            },
        ) => sent.0 == frame.0 && has_both(targets, stream, buffer),
        _ => false,
    }
}
