//! What one entry says.
ghost use Rattle.std.specs.Prelude.{◌≡◌};
ghost use Rattle.trace_model.specs.Calls.{is_submission, submits, is_closing_word};
ghost use Rattle.trace_model.specs.Configuration.{configures};
ghost use Rattle.trace_model.specs.Entry.{sends, is_numbering, takes, sends_for, is_shutter, is_partial, is_part};
ghost use Rattle.trace_model.specs.Entry.{brings, returns_target, returns_of_frame, is_early, is_early_with, is_late_with};
ghost use Rattle.trace_model.specs.Entry.{is_error_request, is_error_result, is_error_buffer, is_error_of, is_error_device};
ghost use Rattle.trace_model.specs.Entry.{is_release, signals, is_refusal, is_call, is_stop_word, is_stop};

use cam_types::{DeviceFenceNo, FenceNo, FrameNo, Reply, RequestId, StreamIx, Word};
use trace_model::Entry;

/// Whether the entry sends the frame to the device.
pub fn sends(entry: &Entry, frame: FrameNo) -> bool
    ensures { result ≡ sends frame.0 entry.now }
{
    matches!(entry, Entry::Send { frame: sent, .. } if sent.0 == frame.0)
}

/// Whether the entry gives a frame number away, by a send or a drop.
pub fn is_numbering(entry: &Entry) -> bool
    ensures { result ≡ is_numbering entry.now }
{
    matches!(entry, Entry::Send { .. } | Entry::Dropped { .. })
}

/// Whether the entry takes the request's item at the place, by a send or a drop.
pub fn takes(entry: &Entry, request: RequestId, place: u32) -> bool
    ensures { result ≡ takes request.0 place entry.now }
{
    match entry {
        Entry::Send {
            request: of,
            item,
            ..
        }
        | Entry::Dropped {
            request: of,
            item,
            ..
        } => of.0 == request.0 && *item == place,
        _ => false,
    }
}

/// Whether the entry sends an item of the request.
pub fn sends_for(entry: &Entry, request: RequestId) -> bool
    ensures { result ≡ sends_for request.0 entry.now }
{
    matches!(entry, Entry::Send { request: of, .. } if of.0 == request.0)
}

/// Whether the entry is the shutter of the frame.
pub fn is_shutter(entry: &Entry, frame: FrameNo) -> bool
    ensures { result ≡ is_shutter frame.0 entry.now }
{
    matches!(entry, Entry::Shutter { frame: exposed, .. } if exposed.0 == frame.0)
}

/// Whether the entry is a partial result of the frame.
pub fn is_partial(entry: &Entry, frame: FrameNo) -> bool
    ensures { result ≡ is_partial frame.0 entry.now }
{
    matches!(entry, Entry::Partial { frame: of, .. } if of.0 == frame.0)
}

/// Whether the entry is the frame's partial result of the number.
pub fn is_part(entry: &Entry, frame: FrameNo, number: u8) -> bool
    ensures { result ≡ is_part frame.0 number entry.now }
{
    match entry {
        Entry::Partial {
            frame: of,
            number: given,
            ..
        } => of.0 == frame.0 && *given == number,
        _ => false,
    }
}

/// Whether the entry gives back the frame's buffer for the stream, filled or failed.
pub fn brings(entry: &Entry, frame: FrameNo, stream: StreamIx) -> bool
    ensures { result ≡ brings frame.0 stream.0 entry.now }
{
    match entry {
        Entry::Filled {
            frame: of,
            stream: on,
            ..
        }
        | Entry::Failed {
            frame: of,
            stream: on,
            ..
        } => of.0 == frame.0 && on.0 == stream.0,
        _ => false,
    }
}

/// Whether the entry gives back the frame's buffer for the stream, filled, failed or early.
pub fn returns_target(entry: &Entry, frame: FrameNo, stream: StreamIx) -> bool
    ensures { result ≡ returns_target frame.0 stream.0 entry.now }
{
    match entry {
        Entry::Filled {
            frame: of,
            stream: on,
            ..
        }
        | Entry::Failed {
            frame: of,
            stream: on,
            ..
        }
        | Entry::Early {
            frame: of,
            stream: on,
            ..
        } => of.0 == frame.0 && on.0 == stream.0,
        _ => false,
    }
}

/// Whether the entry gives back some buffer of the frame.
pub fn returns_of_frame(entry: &Entry, frame: FrameNo) -> bool
    ensures { result ≡ returns_of_frame frame.0 entry.now }
{
    match entry {
        Entry::Filled { frame: of, .. }
        | Entry::Failed { frame: of, .. }
        | Entry::Early { frame: of, .. } => of.0 == frame.0,
        _ => false,
    }
}

/// Whether the entry gives a buffer back early.
pub fn is_early(entry: &Entry) -> bool
    ensures { result ≡ is_early entry.now }
{
    matches!(entry, Entry::Early { .. })
}

/// Whether the entry gives a buffer back early with the device fence.
pub fn is_early_with(entry: &Entry, fence: DeviceFenceNo) -> bool
    ensures { result ≡ is_early_with fence.0 entry.now }
{
    matches!(entry, Entry::Early { fence: given, .. } if given.0 == fence.0)
}

/// Whether the entry signals the device fence.
pub fn is_late_with(entry: &Entry, fence: DeviceFenceNo) -> bool
    ensures { result ≡ is_late_with fence.0 entry.now }
{
    matches!(entry, Entry::Late { fence: signalled, .. } if signalled.0 == fence.0)
}

/// Whether the entry says that the capture of the frame failed whole.
pub fn is_error_request(entry: &Entry, frame: FrameNo) -> bool
    ensures { result ≡ is_error_request frame.0 entry.now }
{
    matches!(entry, Entry::ErrorRequest { frame: of } if of.0 == frame.0)
}

/// Whether the entry says that metadata of the frame is missing.
pub fn is_error_result(entry: &Entry, frame: FrameNo) -> bool
    ensures { result ≡ is_error_result frame.0 entry.now }
{
    matches!(entry, Entry::ErrorResult { frame: of } if of.0 == frame.0)
}

/// Whether the entry says that the frame's buffer for the stream won't be filled.
pub fn is_error_buffer(entry: &Entry, frame: FrameNo, stream: StreamIx) -> bool
    ensures { result ≡ is_error_buffer frame.0 stream.0 entry.now }
{
    match entry {
        Entry::ErrorBuffer {
            frame: of,
            stream: on,
        } => of.0 == frame.0 && on.0 == stream.0,
        _ => false,
    }
}

/// Whether the entry is an error of the frame.
pub fn is_error_of(entry: &Entry, frame: FrameNo) -> bool
    ensures { result ≡ is_error_of frame.0 entry.now }
{
    match entry {
        Entry::ErrorRequest { frame: of }
        | Entry::ErrorResult { frame: of }
        | Entry::ErrorBuffer { frame: of, .. } => of.0 == frame.0,
        _ => false,
    }
}

/// Whether the entry says that the device failed.
pub fn is_error_device(entry: &Entry) -> bool
    ensures { result ≡ is_error_device entry.now }
{
    matches!(entry, Entry::ErrorDevice)
}

/// Whether the entry releases a buffer.
pub fn is_release(entry: &Entry) -> bool
    ensures { result ≡ is_release entry.now }
{
    matches!(entry, Entry::Release { .. })
}

/// Whether the entry signals the fence.
pub fn signals(entry: &Entry, fence: FenceNo) -> bool
    ensures { result ≡ signals fence.0 entry.now }
{
    matches!(entry, Entry::Signal { fence: signalled } if signalled.0 == fence.0)
}

/// Whether the reply is a refusal.
pub fn is_refusal(reply: &Reply) -> bool
    ensures { result ≡ is_refusal reply.now }
{
    matches!(reply, Reply::Refused { .. })
}

/// Whether the entry answers a command.
pub fn is_call(entry: &Entry) -> bool
    ensures { result ≡ is_call entry.now }
{
    matches!(entry, Entry::Call { .. })
}

/// Whether a command with the word stops what the device has in process.
pub fn is_stop_word(word: Word) -> bool
    ensures { result ≡ is_stop_word word }
{
    matches!(word, Word::Flush | Word::Disconnect)
}

/// Whether frames that were sent before the entry are stopped from it on.
pub fn is_stop(entry: &Entry) -> bool
    ensures { result ≡ is_stop entry.now }
{
    match entry {
        Entry::Begin { word } => is_stop_word(*word),
        Entry::ErrorDevice => true,
        _ => false,
    }
}

/// Whether the entry accepts a request.
pub fn is_submission(entry: &Entry) -> bool
    ensures { result ≡ is_submission entry.now }
{
    matches!(
        entry,
        Entry::Call {
            reply: Reply::Submitted(_),
            ..
        }
    )
}

/// Whether the entry accepts the request.
pub fn submits(entry: &Entry, request: RequestId) -> bool
    ensures { result ≡ submits request.0 entry.now }
{
    match entry {
        Entry::Call {
            reply: Reply::Submitted(given),
            ..
        } => given.0 == request.0,
        _ => false,
    }
}

/// Whether the entry accepts a configuration.
pub fn configures(entry: &Entry) -> bool
    ensures { result ≡ configures entry.now }
{
    matches!(
        entry,
        Entry::Call {
            reply: Reply::Configured(_),
            ..
        }
    )
}

/// Whether a command with the word closes the service.
pub fn is_closing_word(word: Word) -> bool
    ensures { result ≡ is_closing_word word }
{
    matches!(word, Word::Close | Word::Disconnect)
}
