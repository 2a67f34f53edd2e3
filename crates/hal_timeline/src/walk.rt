//! What stands after each event, carried on from event to event.
ghost use Rattle.std.specs.Prelude.{◌≡◌, ◌∷◌, [], List, OnOk, length};
ghost use Rattle.hal_model.specs.declared.event.HalEvent.{HalEvent as AnEvent};
ghost use Rattle.hal_timeline.specs.Walks.{is_stopping, standing, standing_of};

use crate::calls::{Asked, Calls, asked_after};
use crate::rows::Rows;
use cam_types::NoMemory;
use hal_model::HalEvent;
use std::alloc::Global;

/// What stands after the events so far.
#[derive(Drop)]
pub struct Walk {
    pub rows: Rows,
    pub calls: Calls,
    pub asked: Option<Asked>,
}

impl Walk {
    /// What stands before the first event.
    pub fn new(alloc: Global) -> Walk
        ensures { standing_of result ≡ standing [] }
    {
        Walk {
            rows: Rows::new(alloc),
            calls: Calls::new(),
            asked: None,
        }
    }

    /// Notes the event at a place.
    pub fn note(&mut self, event: &HalEvent, place: u32) -> Result<(), NoMemory>
        ensures { (past : List AnEvent) → standing_of self.old ≡ standing past → length past ≡ place →
            OnOk result (standing_of self.new ≡ standing (event.now ∷ past)) }
    {
        self.rows.note(event, place)?;
        self.calls = self.calls.after(event, place);
        self.asked = asked_after(event, place, self.asked);
        Ok(())
    }

    /// Whether a flush or a close is under way.
    pub fn is_stopping(&self) -> bool
        ensures { result ≡ is_stopping self.now.calls }
    {
        self.calls.flushing.is_some() || self.calls.closing.is_some()
    }
}
