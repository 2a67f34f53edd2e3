//! Which calls have begun.

ghost use Rattle.std.specs.Prelude.{◌≡◌, ◌++◌, ◌∷◌, [], List, OnOk};
ghost use Rattle.std.specs.BTreeSet.{contains};
ghost use Rattle.std.specs.Ordering.{nat_cmp};
ghost use Rattle.hal_model.specs.declared.event.HalEvent.{HalEvent as AnEvent};
ghost use Rattle.hal_model.specs.Fits.{has_begin};
ghost use Rattle.hal_text.specs.Begun.{Knows};

use cam_types::NoMemory;
use hal_model::HalEvent;
use std::alloc::Global;
use std::collections::BTreeSet;

/// The calls that have begun, whether they have ended or not: of requests by their numbers.
#[derive(Drop)]
pub struct Begun {
    opened: bool,
    initialized: bool,
    templated: bool,
    configured: bool,
    flushed: bool,
    closed: bool,
    requests: BTreeSet<u32>,
}

impl Begun {
    /// None has.
    pub fn new(alloc: Global) -> Begun
        ensures { Knows result [] }
    {
        Begun {
            opened: false,
            initialized: false,
            templated: false,
            configured: false,
            flushed: false,
            closed: false,
            requests: BTreeSet::new(alloc),
        }
    }

    /// Whether the request has begun.
    fn is_requested(&self, frame: u32) -> bool
        ensures { result ≡ contains nat_cmp self.now.requests frame }
    {
        self.requests.contains(&frame)
    }

    /// Whether the call has begun that an event ends, if it ends one.
    pub fn has_begin(&self, event: &HalEvent) -> bool
        ensures { (past : List AnEvent) → Knows self.now past → result ≡ has_begin past event.now }
    {
        match event {
            HalEvent::OpenOk | HalEvent::OpenError { .. } => self.opened,
            HalEvent::InitOk | HalEvent::InitError { .. } => self.initialized,
            HalEvent::TemplateOk { .. } | HalEvent::TemplateNull { .. } => self.templated,
            HalEvent::ConfigureOk { .. } | HalEvent::ConfigureError { .. } => self.configured,
            HalEvent::RequestOk { frame } => self.is_requested(*frame),
            HalEvent::RequestError { frame, .. } => self.is_requested(*frame),
            HalEvent::FlushOk | HalEvent::FlushError { .. } => self.flushed,
            HalEvent::CloseEnd => self.closed,
            _ => true,
        }
    }

    /// Notes an event.
    pub fn note(&mut self, event: &HalEvent) -> Result<(), NoMemory>
        ensures { (past : List AnEvent) → Knows self.old past →
            OnOk result (Knows self.new (past ++ event.now ∷ [])) }
    {
        match event {
            HalEvent::OpenBegin => self.opened = true,
            HalEvent::InitBegin => self.initialized = true,
            HalEvent::TemplateBegin { .. } => self.templated = true,
            HalEvent::ConfigureBegin { .. } => self.configured = true,
            HalEvent::RequestBegin { frame, .. } => {
                self.requests.insert(*frame)?;
            }
            HalEvent::FlushBegin => self.flushed = true,
            HalEvent::CloseBegin => self.closed = true,
            _ => {}
        }
        Ok(())
    }
}
