//! Which events a clue means, and which limit its search.
ghost use Rattle.std.specs.Prelude.{◌≡◌, ◌==◌, ◌&&◌};
ghost use Rattle.std.specs.List.{list_any};
ghost use Rattle.hal_model.specs.Words.{accepts_from, begins, is_begin, is_callback, is_same_number};
ghost use Rattle.hal_text.specs.Clues.{brings, ends_request, gives_for, has_part, is_last_breath, is_limit, is_meant, is_meant_in_session, is_meant_of, is_result_above, is_result_of, is_settled, is_which};

use crate::clue::{Clue, FrameClue, SessionClue, Which};
use hal_model::{HalEvent, HalTarget, Pack, Returned};
use hal_row::buffer::{is_failed_buffer, is_filled};
use hal_row::word::{
    begins_close, begins_configure, begins_flush, begins_request, configures, ends_close,
    ends_configure, gives_something, inits, is_error_buffer, is_error_device, is_error_in,
    is_error_request, is_error_result, is_init_ok, is_no_device, is_open_ok, is_part, is_said,
    is_same_number, is_shutter, templates,
};

// ---- in the session

/// Whether the event begins the request.
fn begins(frame: u32, event: &HalEvent) -> bool
    ensures { result ≡ begins frame event.now }
{
    matches!(event, HalEvent::RequestBegin { frame: other, .. } if *other == frame)
}

/// Whether the event accepts a request whose number is this or above.
fn accepts_from(frame: u32, event: &HalEvent) -> bool
    ensures { result ≡ accepts_from frame event.now }
{
    match event {
        HalEvent::RequestOk { frame: other } => !(*other < frame),
        _ => false,
    }
}

/// Whether the device tells that it is dead.
fn is_last_breath(event: &HalEvent) -> bool
    ensures { result ≡ is_last_breath event.now }
{
    match event {
        HalEvent::ErrorDevice => true,
        HalEvent::InitError { error } => is_no_device(error),
        HalEvent::TemplateNull { template } => 0 < *template && *template <= 6,
        HalEvent::ConfigureError { error } => is_no_device(error),
        HalEvent::RequestError { error, .. } => is_no_device(error),
        HalEvent::FlushError { error } => is_no_device(error),
        _ => false,
    }
}

/// Whether some target has the buffer.
fn has_buffer(buffer: u32, targets: &[HalTarget]) -> bool
    ensures { result ≡ list_any (λ t. t.buffer == buffer) targets.now }
{
    targets.iter().any(|target| target.buffer == buffer)
}

/// Whether a request begins that brings the buffer.
fn brings(buffer: u32, event: &HalEvent) -> bool
    ensures { result ≡ brings buffer event.now }
{
    match event {
        HalEvent::RequestBegin { targets, .. } => has_buffer(buffer, targets.as_slice()),
        _ => false,
    }
}

/// Whether any call begins.
fn is_begin(event: &HalEvent) -> bool
    ensures { result ≡ is_begin event.now }
{
    matches!(
        event,
        HalEvent::OpenBegin
            | HalEvent::InitBegin
            | HalEvent::TemplateBegin { .. }
            | HalEvent::ConfigureBegin { .. }
            | HalEvent::RequestBegin { .. }
            | HalEvent::FlushBegin
            | HalEvent::CloseBegin
    )
}

/// Whether it is a callback.
fn is_callback(event: &HalEvent) -> bool
    ensures { result ≡ is_callback event.now }
{
    matches!(
        event,
        HalEvent::Shutter { .. }
            | HalEvent::ErrorRequest { .. }
            | HalEvent::ErrorResult { .. }
            | HalEvent::ErrorBuffer { .. }
            | HalEvent::ErrorDevice
            | HalEvent::Results { .. }
    )
}

/// Whether the clue means the event.
fn is_meant_in_session(clue: SessionClue, event: &HalEvent) -> bool
    ensures { result ≡ is_meant_in_session clue event.now }
{
    match clue {
        SessionClue::InitBegin => inits(event),
        SessionClue::TemplateBegin => templates(event),
        SessionClue::ConfigureBegin => begins_configure(event),
        SessionClue::RequestBegin(frame) => begins(frame, event),
        SessionClue::FlushBegin => begins_flush(event),
        SessionClue::CloseBegin => begins_close(event),
        SessionClue::InitOk => is_init_ok(event),
        SessionClue::ConfigureOk => configures(event),
        SessionClue::CloseEnd => ends_close(event),
        SessionClue::DeviceError => is_error_device(event),
        SessionClue::Death => is_last_breath(event),
        SessionClue::WorkInCall => begins_request(event) || begins_configure(event),
        SessionClue::AnyInCall => is_begin(event),
        SessionClue::AcceptedFrom(frame) => accepts_from(frame, event),
        SessionClue::Holder(buffer) => brings(buffer, event),
    }
}

// ---- since a request's begin

/// Whether the buffer is one of those.
fn is_which(which: Which, buffer: &Returned) -> bool
    ensures { result ≡ is_which which buffer.now }
{
    match which {
        Which::Any => true,
        Which::Ok => is_filled(buffer),
        Which::Failed => is_failed_buffer(buffer),
    }
}

/// Whether some buffer is one of those, and of the stream.
fn has_for(which: Which, stream: Option<u32>, buffers: &[Returned]) -> bool
    ensures { result ≡ list_any (λ r. is_which which r && is_same_number r.stream stream) buffers.now }
{
    buffers.iter().any(|buffer| is_which(which, buffer) && is_same_number(buffer.stream, stream))
}

/// Whether a buffer of the stream comes back.
fn gives_for(which: Which, stream: Option<u32>, event: &HalEvent) -> bool
    ensures { result ≡ gives_for which stream event.now }
{
    match event {
        HalEvent::Results { buffers, .. } => has_for(which, stream, buffers.as_slice()),
        _ => false,
    }
}

/// Whether it is a result of the frame.
fn is_result_of(frame: u32, event: &HalEvent) -> bool
    ensures { result ≡ is_result_of frame event.now }
{
    matches!(event, HalEvent::Results { frame: other, .. } if *other == frame)
}

/// Whether it is a result of a frame with a higher number.
fn is_result_above(frame: u32, event: &HalEvent) -> bool
    ensures { result ≡ is_result_above frame event.now }
{
    matches!(event, HalEvent::Results { frame: other, .. } if frame < *other)
}

/// Whether it brings metadata under the number.
fn has_part(part: u32, event: &HalEvent) -> bool
    ensures { result ≡ has_part part event.now }
{
    matches!(event, HalEvent::Results { partial, pack: Pack::Entries, .. } if *partial == part)
}

/// Whether it names the frame, and isn't its begin.
fn names(frame: u32, event: &HalEvent) -> bool
    ensures { result ≡ is_meant_of frame FrameClue.Named event.now }
{
    match event {
        HalEvent::RequestOk { frame: other } => *other == frame,
        HalEvent::RequestError { frame: other, .. } => *other == frame,
        HalEvent::Shutter { frame: other, .. } => *other == frame,
        HalEvent::ErrorRequest { frame: other } => *other == frame,
        HalEvent::ErrorResult { frame: other } => *other == frame,
        HalEvent::ErrorBuffer { frame: other, .. } => *other == frame,
        HalEvent::Results { frame: other, .. } => *other == frame,
        _ => false,
    }
}

/// Whether the clue means the event.
fn is_meant_of(frame: u32, clue: FrameClue, event: &HalEvent) -> bool
    ensures { result ≡ is_meant_of frame clue event.now }
{
    match clue {
        FrameClue::Shutter => is_shutter(frame, event),
        FrameClue::RequestError => is_error_request(frame, event),
        FrameClue::ResultError => is_error_result(frame, event),
        FrameClue::BufferError(stream) => is_error_buffer(frame, stream, event),
        FrameClue::Announced(stream) => {
            is_error_request(frame, event) || is_error_buffer(frame, stream, event)
        }
        FrameClue::Said => is_said(frame, event),
        FrameClue::Named => names(frame, event),
        FrameClue::Part(part) => is_part(frame, part, event),
        FrameClue::LaterPart(part) => is_result_above(frame, event) && has_part(part, event),
        FrameClue::Buffer(which, stream) => {
            is_result_of(frame, event) && gives_for(which, stream, event)
        }
        FrameClue::LaterBuffer(which, stream) => {
            is_result_above(frame, event) && gives_for(which, stream, event)
        }
        FrameClue::Good => gives_something(frame, event),
        FrameClue::GoodOrError => gives_something(frame, event) || is_error_in(frame, event),
    }
}

// ---- a clue

/// Whether the clue means the event.
pub fn is_meant(clue: Clue, event: &HalEvent) -> bool
    ensures { result ≡ is_meant clue event.now }
{
    match clue {
        Clue::Session(clue) => is_meant_in_session(clue, event),
        Clue::Frame(frame, clue) => is_meant_of(frame, clue, event),
    }
}

/// Whether the event ends a request's call.
fn ends_request(event: &HalEvent) -> bool
    ensures { result ≡ ends_request event.now }
{
    matches!(
        event,
        HalEvent::RequestOk { .. } | HalEvent::RequestError { .. }
    )
}

/// Whether no begin before the event is in call.
fn is_settled(clue: SessionClue, event: &HalEvent) -> bool
    ensures { result ≡ is_settled clue event.now }
{
    match clue {
        SessionClue::WorkInCall => ends_request(event) || ends_configure(event),
        SessionClue::AnyInCall => !is_callback(event),
        _ => false,
    }
}

/// Whether the clue is looked for no further back than the event.
pub fn is_limit(clue: Clue, event: &HalEvent) -> bool
    ensures { result ≡ is_limit clue event.now }
{
    match clue {
        Clue::Session(clue) => is_open_ok(event) || is_settled(clue, event),
        Clue::Frame(frame, _) => is_open_ok(event) || begins(frame, event),
    }
}
