//! The calls that are out: where the last of each kind began.
ghost use Rattle.std.specs.Prelude.{◌≡◌};
ghost use Rattle.hal_timeline.specs.Walks.{asked_after, begun_at, begun_by, calls_after, ended_by, no_calls, with_call, with_place};

use hal_model::HalEvent;
use timeline_model::HalCall;

/// Of each kind of call where the one began that is out.
#[derive(Clone, Copy)]
pub struct Calls {
    pub opening: Option<u32>,
    pub initializing: Option<u32>,
    pub templating: Option<u32>,
    pub configuring: Option<u32>,
    pub flushing: Option<u32>,
    pub closing: Option<u32>,
}

/// A request in call, and the place where it began.
#[derive(Clone, Copy)]
pub struct Asked {
    pub frame: u32,
    pub place: u32,
}

/// The call that an event begins.
fn begun_by(event: &HalEvent) -> Option<HalCall>
    ensures { result ≡ begun_by event.now }
{
    match event {
        HalEvent::OpenBegin => Some(HalCall::Open),
        HalEvent::InitBegin => Some(HalCall::Init),
        HalEvent::TemplateBegin { .. } => Some(HalCall::Template),
        HalEvent::ConfigureBegin { .. } => Some(HalCall::Configure),
        HalEvent::FlushBegin => Some(HalCall::Flush),
        HalEvent::CloseBegin => Some(HalCall::Close),
        _ => None,
    }
}

/// The call that an event ends.
pub fn ended_by(event: &HalEvent) -> Option<HalCall>
    ensures { result ≡ ended_by event.now }
{
    match event {
        HalEvent::OpenOk => Some(HalCall::Open),
        HalEvent::OpenError { .. } => Some(HalCall::Open),
        HalEvent::InitOk => Some(HalCall::Init),
        HalEvent::InitError { .. } => Some(HalCall::Init),
        HalEvent::TemplateOk { .. } => Some(HalCall::Template),
        HalEvent::TemplateNull { .. } => Some(HalCall::Template),
        HalEvent::ConfigureOk { .. } => Some(HalCall::Configure),
        HalEvent::ConfigureError { .. } => Some(HalCall::Configure),
        HalEvent::FlushOk => Some(HalCall::Flush),
        HalEvent::FlushError { .. } => Some(HalCall::Flush),
        HalEvent::CloseEnd => Some(HalCall::Close),
        _ => None,
    }
}

/// The request in call after an event at the place.
pub fn asked_after(event: &HalEvent, place: u32, asked: Option<Asked>) -> Option<Asked>
    ensures { result ≡ asked_after event.now place asked }
{
    match event {
        HalEvent::RequestBegin { frame, .. } => Some(Asked {
            frame: *frame,
            place,
        }),
        HalEvent::RequestOk { .. } => None,
        HalEvent::RequestError { .. } => None,
        _ => asked,
    }
}

impl Calls {
    /// None is out.
    pub fn new() -> Calls
        ensures { result ≡ no_calls }
    {
        Calls {
            opening: None,
            initializing: None,
            templating: None,
            configuring: None,
            flushing: None,
            closing: None,
        }
    }

    /// Where the call of the kind began that is out.
    pub fn begun_at(self, call: HalCall) -> Option<u32>
        ensures { result ≡ begun_at call self }
    {
        match call {
            HalCall::Open => self.opening,
            HalCall::Init => self.initializing,
            HalCall::Template => self.templating,
            HalCall::Configure => self.configuring,
            HalCall::Flush => self.flushing,
            HalCall::Close => self.closing,
        }
    }

    fn with_place(self, call: HalCall, place: Option<u32>) -> Calls
        ensures { result ≡ with_place call place self }
    {
        match call {
            HalCall::Open => Calls {
                opening: place,
                ..self
            },
            HalCall::Init => Calls {
                initializing: place,
                ..self
            },
            HalCall::Template => Calls {
                templating: place,
                ..self
            },
            HalCall::Configure => Calls {
                configuring: place,
                ..self
            },
            HalCall::Flush => Calls {
                flushing: place,
                ..self
            },
            HalCall::Close => Calls {
                closing: place,
                ..self
            },
        }
    }

    fn with_call(self, call: Option<HalCall>, place: Option<u32>) -> Calls
        ensures { result ≡ with_call call place self }
    {
        match call {
            Some(call) => self.with_place(call, place),
            None => self,
        }
    }

    /// The calls that are out after an event at the place.
    pub fn after(self, event: &HalEvent, place: u32) -> Calls
        ensures { result ≡ calls_after event.now place self }
    {
        self.with_call(begun_by(event), Some(place))
            .with_call(ended_by(event), None)
    }
}
