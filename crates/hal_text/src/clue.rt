//! What a breach refers to beside the request that it is about: one earlier event.
ghost use Rattle.std.specs.Prelude.{◌≡◌};
ghost use Rattle.hal_text.specs.Clues.{begin_clue, buffer_for, clue_of, frame_clue, holder_clue, is_call_of_request, is_in_two, overlap_clue, part_clue, session_clue, twice_clue};

use hal_model::{Breach, HalEvent, HalTarget, Rule};

/// An event of the session.
#[derive(Clone, Copy)]
pub enum SessionClue {
    InitBegin,
    TemplateBegin,
    ConfigureBegin,
    /// The begin of the request with the number.
    RequestBegin(u32),
    FlushBegin,
    CloseBegin,
    InitOk,
    ConfigureOk,
    CloseEnd,
    /// The device told of a fatal failure.
    DeviceError,
    /// The device told that it is dead: so, by ENODEV, or by a template that it hasn't.
    Death,
    /// The begin of a request or configure that is in call.
    WorkInCall,
    /// The begin of any call that is in call.
    AnyInCall,
    /// A request with the number, or with one above it, is accepted.
    AcceptedFrom(u32),
    /// A request begins that brings the buffer.
    Holder(u32),
}

/// Which buffers that come back are meant.
#[derive(Clone, Copy)]
pub enum Which {
    Any,
    Ok,
    Failed,
}

/// An event that stands since a request was begun, and speaks of it, or of one with a number above its.
#[derive(Clone, Copy)]
pub enum FrameClue {
    Shutter,
    RequestError,
    ResultError,
    BufferError(Option<u32>),
    /// Its whole or the stream's buffer failed.
    Announced(Option<u32>),
    /// A callback.
    Said,
    /// Anything but its begin.
    Named,
    /// Metadata under this number.
    Part(u32),
    /// Metadata of a request with a higher number, under this number.
    LaterPart(u32),
    /// A buffer of the stream comes back.
    Buffer(Which, Option<u32>),
    /// A buffer of the stream comes back, of a request with a higher number.
    LaterBuffer(Which, Option<u32>),
    /// Metadata, or a good buffer.
    Good,
    /// The same, or an error of a part of it.
    GoodOrError,
}

/// What is looked for before an event: the newest event of its kind, in the session or since the request's begin.
#[derive(Clone, Copy)]
pub enum Clue {
    Session(SessionClue),
    Frame(u32, FrameClue),
}

/// The begin of the call that an event ends.
pub fn begin_clue(event: &HalEvent) -> Option<Clue>
    ensures { result ≡ begin_clue event.now }
{
    match event {
        HalEvent::InitOk => Some(Clue::Session(SessionClue::InitBegin)),
        HalEvent::TemplateOk { .. } => Some(Clue::Session(SessionClue::TemplateBegin)),
        HalEvent::ConfigureOk { .. } => Some(Clue::Session(SessionClue::ConfigureBegin)),
        HalEvent::RequestOk { frame } => Some(Clue::Session(SessionClue::RequestBegin(*frame))),
        HalEvent::RequestError { frame, .. } => {
            Some(Clue::Session(SessionClue::RequestBegin(*frame)))
        }
        HalEvent::FlushOk => Some(Clue::Session(SessionClue::FlushBegin)),
        HalEvent::CloseEnd => Some(Clue::Session(SessionClue::CloseBegin)),
        _ => None,
    }
}

/// Whether the event begins or ends a request's call.
pub fn is_call_of_request(event: &HalEvent) -> bool
    ensures { result ≡ is_call_of_request event.now }
{
    matches!(
        event,
        HalEvent::RequestBegin { .. } | HalEvent::RequestOk { .. } | HalEvent::RequestError { .. }
    )
}

/// The call that an event may overlap.
fn overlap_clue(event: &HalEvent) -> SessionClue
    ensures { result ≡ overlap_clue event.now }
{
    match event {
        HalEvent::CloseBegin => SessionClue::AnyInCall,
        _ => SessionClue::WorkInCall,
    }
}

/// The first buffer that the targets have for a stream.
fn buffer_for(stream: u32, targets: &[HalTarget]) -> Option<u32>
    ensures { result ≡ buffer_for stream targets.now }
{
    let target = targets.iter().find(|target| target.stream == stream)?;
    Some(target.buffer)
}

/// Whether the buffer stands in more than one target.
fn is_in_two(buffer: u32, targets: &[HalTarget]) -> bool
    ensures { result ≡ is_in_two buffer targets.now }
{
    targets
        .iter()
        .filter(|target| target.buffer == buffer)
        .count()
        > 1
}

/// The request that has the buffer which the event brings for the stream.
fn holder_clue(event: &HalEvent, stream: Option<u32>) -> Option<SessionClue>
    ensures { result ≡ holder_clue event.now stream }
{
    match (event, stream) {
        (HalEvent::RequestBegin { targets, .. }, Some(stream)) => {
            let buffer = buffer_for(stream, targets.as_slice())?;
            if is_in_two(buffer, targets.as_slice()) {
                None
            } else {
                Some(SessionClue::Holder(buffer))
            }
        }
        _ => None,
    }
}

/// What is looked for in the session.
fn session_clue(breach: &Breach, event: &HalEvent) -> Option<SessionClue>
    ensures { result ≡ session_clue breach.now event.now }
{
    match breach.rule {
        Rule::InitTwice => Some(SessionClue::InitBegin),
        Rule::NoSettings => Some(SessionClue::ConfigureOk),
        Rule::OverlappingCalls => Some(overlap_clue(event)),
        Rule::CallAfterClose => Some(SessionClue::CloseBegin),
        Rule::FrameNumber => match breach.frame {
            Some(frame) => Some(SessionClue::AcceptedFrom(frame)),
            None => None,
        },
        Rule::HeldBuffer => holder_clue(event, breach.stream),
        Rule::TooManyBuffers => Some(SessionClue::ConfigureOk),
        Rule::UnknownStream => Some(SessionClue::ConfigureOk),
        Rule::AcceptedInitTwice => Some(SessionClue::InitOk),
        Rule::AcceptedDead => Some(SessionClue::Death),
        Rule::AcceptedNoSettings => Some(SessionClue::ConfigureOk),
        Rule::AcceptedUnknownStream => Some(SessionClue::ConfigureOk),
        Rule::CallbackAfterClose => Some(SessionClue::CloseEnd),
        Rule::CallbackAfterFailure => Some(SessionClue::DeviceError),
        _ => None,
    }
}

/// The part that a result brings, once more or behind that of a later request.
fn part_clue(event: &HalEvent, is_later: bool) -> Option<FrameClue>
    ensures { result ≡ part_clue event.now is_later }
{
    match event {
        HalEvent::Results { partial, .. } if is_later => Some(FrameClue::LaterPart(*partial)),
        HalEvent::Results { partial, .. } => Some(FrameClue::Part(*partial)),
        _ => None,
    }
}

/// The same error as the event's.
fn twice_clue(event: &HalEvent) -> Option<FrameClue>
    ensures { result ≡ twice_clue event.now }
{
    match event {
        HalEvent::ErrorRequest { .. } => Some(FrameClue::RequestError),
        HalEvent::ErrorResult { .. } => Some(FrameClue::ResultError),
        HalEvent::ErrorBuffer { stream, .. } => Some(FrameClue::BufferError(*stream)),
        _ => None,
    }
}

/// What is looked for since the request's begin.
fn frame_clue(breach: &Breach, event: &HalEvent) -> Option<FrameClue>
    ensures { result ≡ frame_clue breach.now event.now }
{
    let stream = breach.stream;
    match breach.rule {
        Rule::RefusedAfterCallback => Some(FrameClue::Said),
        Rule::UnknownFrame => Some(FrameClue::Named),
        Rule::ShutterTwice => Some(FrameClue::Shutter),
        Rule::ShutterAfterRequestError => Some(FrameClue::RequestError),
        Rule::PartialTwice => part_clue(event, false),
        Rule::MetadataAfterRequestError => Some(FrameClue::RequestError),
        Rule::MetadataOrder => part_clue(event, true),
        Rule::NotAtDevice => Some(FrameClue::Buffer(Which::Any, stream)),
        Rule::BufferOrder => Some(FrameClue::LaterBuffer(Which::Ok, stream)),
        Rule::FailedBufferOrder => Some(FrameClue::LaterBuffer(Which::Any, stream)),
        Rule::GoodAfterError => Some(FrameClue::Announced(stream)),
        Rule::ErrorTwice => twice_clue(event),
        Rule::ErrorBesideRequestError => Some(FrameClue::RequestError),
        Rule::RequestErrorLate => Some(FrameClue::GoodOrError),
        Rule::ErrorForGoodBuffer => Some(FrameClue::Buffer(Which::Ok, stream)),
        Rule::FailedWithoutNotice => Some(FrameClue::Buffer(Which::Failed, stream)),
        Rule::NoShutter => Some(FrameClue::Good),
        _ => None,
    }
}

/// What a breach of this event refers to, beside the request that it is about.
pub fn clue_of(breach: &Breach, event: &HalEvent) -> Option<Clue>
    ensures { result ≡ clue_of breach.now event.now }
{
    match (session_clue(breach, event), breach.frame) {
        (Some(clue), _) => Some(Clue::Session(clue)),
        (None, Some(frame)) => match frame_clue(breach, event) {
            Some(clue) => Some(Clue::Frame(frame, clue)),
            None => None,
        },
        (None, None) => None,
    }
}
