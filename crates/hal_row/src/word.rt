//! What one event says.
ghost use Rattle.std.specs.Prelude.{◌≡◌, ◌||◌};
ghost use Rattle.hal_model.specs.Words.{accepts, begins_close, begins_configure, begins_flush, begins_request, configures, ends_close, ends_configure, ends_flush, gives_something, inited, inits, is_error_buffer, is_error_device, is_error_in, is_error_request, is_error_result, is_init_ok, is_last_empty, is_last_part, is_no_device, is_number, is_open_ok, is_part, is_point, is_same_number, is_shutter, opened, opens, refuses, templated, templates};
ghost use Rattle.hal_model.specs.Device.{is_entered, is_result, is_said};

use crate::buffer::has_good;
use hal_model::{HalError, HalEvent, Pack};

/// Whether something stands that an event says, or that stood before.
pub fn stands(said: bool, stood: bool) -> bool
    ensures { result ≡ (said || stood) }
{
    said || stood
}

// ---- numbers

/// Whether it is the number.
pub fn is_number(number: u32, named: Option<u32>) -> bool
    ensures { result ≡ is_number number named }
{
    match named {
        Some(named) => named == number,
        None => false,
    }
}

/// Whether both are the same number, or none.
pub fn is_same_number(a: Option<u32>, b: Option<u32>) -> bool
    ensures { result ≡ is_same_number a b }
{
    match (a, b) {
        (Some(a), Some(b)) => a == b,
        (None, None) => true,
        _ => false,
    }
}

// ---- requests

/// Whether the event accepts the request.
pub fn accepts(frame: u32, event: &HalEvent) -> bool
    ensures { result ≡ accepts frame event.now }
{
    match event {
        HalEvent::RequestOk { frame: of } => *of == frame,
        _ => false,
    }
}

/// Whether the event refuses the request.
pub fn refuses(frame: u32, event: &HalEvent) -> bool
    ensures { result ≡ refuses frame event.now }
{
    match event {
        HalEvent::RequestError { frame: of, .. } => *of == frame,
        _ => false,
    }
}

/// Whether the event begins a request.
pub fn begins_request(event: &HalEvent) -> bool
    ensures { result ≡ begins_request event.now }
{
    matches!(event, HalEvent::RequestBegin { .. })
}

// ---- what is said of a frame

/// Whether the event is the frame's shutter.
pub fn is_shutter(frame: u32, event: &HalEvent) -> bool
    ensures { result ≡ is_shutter frame event.now }
{
    match event {
        HalEvent::Shutter { frame: of, .. } => *of == frame,
        _ => false,
    }
}

/// Whether the event is the error of the whole request.
pub fn is_error_request(frame: u32, event: &HalEvent) -> bool
    ensures { result ≡ is_error_request frame event.now }
{
    match event {
        HalEvent::ErrorRequest { frame: of } => *of == frame,
        _ => false,
    }
}

/// Whether the event is the error of the frame's result.
pub fn is_error_result(frame: u32, event: &HalEvent) -> bool
    ensures { result ≡ is_error_result frame event.now }
{
    match event {
        HalEvent::ErrorResult { frame: of } => *of == frame,
        _ => false,
    }
}

/// Whether the event is an error of some part of the frame.
pub fn is_error_in(frame: u32, event: &HalEvent) -> bool
    ensures { result ≡ is_error_in frame event.now }
{
    match event {
        HalEvent::ErrorResult { frame: of } => *of == frame,
        HalEvent::ErrorBuffer { frame: of, .. } => *of == frame,
        _ => false,
    }
}

/// Whether the event is the error of the frame's buffer of a stream.
pub fn is_error_buffer(frame: u32, stream: Option<u32>, event: &HalEvent) -> bool
    ensures { result ≡ is_error_buffer frame stream event.now }
{
    match event {
        HalEvent::ErrorBuffer {
            frame: of,
            stream: named,
        } => *of == frame && is_same_number(*named, stream),
        _ => false,
    }
}

/// Whether the event is a result of the frame.
pub fn is_result(frame: u32, event: &HalEvent) -> bool
    ensures { result ≡ is_result frame event.now }
{
    match event {
        HalEvent::Results { frame: of, .. } => *of == frame,
        _ => false,
    }
}

/// Whether the device says something of the frame.
pub fn is_said(frame: u32, event: &HalEvent) -> bool
    ensures { result ≡ is_said frame event.now }
{
    is_shutter(frame, event)
        || (is_result(frame, event)
            || (is_error_request(frame, event) || is_error_in(frame, event)))
}

/// Whether the event is the part of the frame's metadata.
pub fn is_part(frame: u32, part: u32, event: &HalEvent) -> bool
    ensures { result ≡ is_part frame part event.now }
{
    match event {
        HalEvent::Results {
            frame: of,
            partial,
            pack: Pack::Entries,
            ..
        } => *of == frame && *partial == part,
        _ => false,
    }
}

/// Whether the event is the last part, or one with a number that isn't one of a part's.
pub fn is_last_part(parts: u32, frame: u32, event: &HalEvent) -> bool
    ensures { result ≡ is_last_part parts frame event.now }
{
    match event {
        HalEvent::Results {
            frame: of,
            partial,
            pack: Pack::Entries,
            ..
        } => *of == frame && !(0 < *partial && *partial < parts),
        _ => false,
    }
}

/// Whether the event is the pack without entries where the last part would be.
pub fn is_last_empty(parts: u32, frame: u32, event: &HalEvent) -> bool
    ensures { result ≡ is_last_empty parts frame event.now }
{
    match event {
        HalEvent::Results {
            frame: of,
            partial,
            pack: Pack::Empty,
            ..
        } => *of == frame && *partial == parts,
        _ => false,
    }
}

/// Whether the event brings something good of the frame: metadata, or a good buffer.
pub fn gives_something(frame: u32, event: &HalEvent) -> bool
    ensures { result ≡ gives_something frame event.now }
{
    match event {
        HalEvent::Results {
            frame: of,
            pack,
            buffers,
            ..
        } => match pack {
            Pack::Entries => *of == frame,
            Pack::Empty => *of == frame && has_good(buffers.as_slice()),
            Pack::Absent => *of == frame && has_good(buffers.as_slice()),
        },
        _ => false,
    }
}

// ---- calls

/// Whether the event opens the device.
pub fn opens(event: &HalEvent) -> bool
    ensures { result ≡ opens event.now }
{
    matches!(event, HalEvent::OpenBegin)
}

/// Whether the event ends an open.
pub fn opened(event: &HalEvent) -> bool
    ensures { result ≡ opened event.now }
{
    matches!(event, HalEvent::OpenOk | HalEvent::OpenError { .. })
}

/// Whether the event ends an open that was ok.
pub fn is_open_ok(event: &HalEvent) -> bool
    ensures { result ≡ is_open_ok event.now }
{
    matches!(event, HalEvent::OpenOk)
}

/// Whether the event begins initialize.
pub fn inits(event: &HalEvent) -> bool
    ensures { result ≡ inits event.now }
{
    matches!(event, HalEvent::InitBegin)
}

/// Whether the event ends initialize.
pub fn inited(event: &HalEvent) -> bool
    ensures { result ≡ inited event.now }
{
    matches!(event, HalEvent::InitOk | HalEvent::InitError { .. })
}

/// Whether the event ends an initialize that was ok.
pub fn is_init_ok(event: &HalEvent) -> bool
    ensures { result ≡ is_init_ok event.now }
{
    matches!(event, HalEvent::InitOk)
}

/// Whether the event asks for a template.
pub fn templates(event: &HalEvent) -> bool
    ensures { result ≡ templates event.now }
{
    matches!(event, HalEvent::TemplateBegin { .. })
}

/// Whether the event ends the call for a template.
pub fn templated(event: &HalEvent) -> bool
    ensures { result ≡ templated event.now }
{
    matches!(
        event,
        HalEvent::TemplateOk { .. } | HalEvent::TemplateNull { .. }
    )
}

/// Whether the event begins a configure.
pub fn begins_configure(event: &HalEvent) -> bool
    ensures { result ≡ begins_configure event.now }
{
    matches!(event, HalEvent::ConfigureBegin { .. })
}

/// Whether the event ends a configure.
pub fn ends_configure(event: &HalEvent) -> bool
    ensures { result ≡ ends_configure event.now }
{
    matches!(
        event,
        HalEvent::ConfigureOk { .. } | HalEvent::ConfigureError { .. }
    )
}

/// Whether the event ends a configure that was ok.
pub fn configures(event: &HalEvent) -> bool
    ensures { result ≡ configures event.now }
{
    matches!(event, HalEvent::ConfigureOk { .. })
}

/// Whether the event begins a flush.
pub fn begins_flush(event: &HalEvent) -> bool
    ensures { result ≡ begins_flush event.now }
{
    matches!(event, HalEvent::FlushBegin)
}

/// Whether the event ends a flush.
pub fn ends_flush(event: &HalEvent) -> bool
    ensures { result ≡ ends_flush event.now }
{
    matches!(event, HalEvent::FlushOk | HalEvent::FlushError { .. })
}

/// Whether the event begins a close.
pub fn begins_close(event: &HalEvent) -> bool
    ensures { result ≡ begins_close event.now }
{
    matches!(event, HalEvent::CloseBegin)
}

/// Whether the event ends a close.
pub fn ends_close(event: &HalEvent) -> bool
    ensures { result ≡ ends_close event.now }
{
    matches!(event, HalEvent::CloseEnd)
}

/// Whether the event begins what excuses the refusal of a request: a flush, a configure or a close.
pub fn is_entered(event: &HalEvent) -> bool
    ensures { result ≡ is_entered event.now }
{
    begins_flush(event) || (begins_configure(event) || begins_close(event))
}

/// Whether what is missing is told at the event: where a flush or a close has returned.
pub fn is_point(event: &HalEvent) -> bool
    ensures { result ≡ is_point event.now }
{
    matches!(event, HalEvent::FlushOk | HalEvent::CloseEnd)
}

// ---- the device

/// Whether the event is the error of the whole device.
pub fn is_error_device(event: &HalEvent) -> bool
    ensures { result ≡ is_error_device event.now }
{
    matches!(event, HalEvent::ErrorDevice)
}

/// Whether the error is ENODEV.
pub fn is_no_device(error: &HalError) -> bool
    ensures { result ≡ is_no_device error.now }
{
    matches!(error, HalError::NoDevice)
}
