//! The state of a judge.
ghost use Rattle.std.specs.Prelude.{◌≡◌, ◌∷◌, ℕ, false, option_copied, true, IfOk, OnOk};
ghost use Rattle.std.specs.List.{list_any};
ghost use Rattle.std.specs.Map.{values_of};
ghost use Rattle.std.specs.Map.Iter.{ShowsInOrder, deref_pair};
ghost use Rattle.hal_rows.specs.declared.row.Row.{Row as ARow};
ghost use Rattle.hal_rows.specs.Judged.{ends_again_at, excused_at, held_count_at, is_held_at, is_requesting_at, is_row, is_row_called_from, names_idle_at, of_called, of_live};
ghost use Rattle.hal_rows.specs.Noting.{first_state, is_stray_at, next_state, hal_state_after};
ghost use Rattle.hal_rows.specs.Row.{fresh_row, row_for, rows_but};
ghost use Rattle.hal_row.specs.Settled.{IsTopped};
ghost use Rattle.hal_table.specs.State.{state_of};

use crate::LiveRows;
use crate::device::{new_device, note_device};
use cam_types::{Listing, NoMemory};
use hal_model::{HalEvent, HalTarget};
use hal_row::row::{Start, fresh_row, is_in_call};
use hal_row::word::is_open_ok;
use hal_row::{Tops, raise_found};
use hal_rows::{Device, Order, Row};
use lru::Iter;
use std::alloc::Global;

/// What a judge keeps of a log: the device, the rows of the live requests, and for each order who was begun last of the
/// requests that brought back what it asks for.
#[derive(Drop)]
pub struct HalTable {
    alloc: Global,
    device: Device,
    rows: LiveRows,
    tops: Tops,
}

impl HalTable {
    /// The state of the empty log. An error only where memory runs out.
    pub fn new(alloc: Global) -> Result<HalTable, NoMemory>
        ensures { IfOk result (λ table. (k : ℕ) → state_of table ≡ first_state k) }
    {
        Ok(HalTable {
            alloc,
            device: new_device(alloc),
            rows: LiveRows::new(alloc)?,
            tops: Tops::new(alloc),
        })
    }

    /// What is known of the device.
    pub fn device(&self) -> &Device
        ensures { result.now ≡ (state_of self.now).device }
    {
        &self.device
    }

    /// The rows of the live requests, that which was begun last first, each beside its request's number.
    pub fn rows(&self) -> Iter<'_, u32, Row>
        ensures rows { values_of result ≡ (state_of self.now).rows }
        ensures runs { ShowsInOrder (deref_pair {K = ℕ} {X = ARow}) }
    {
        self.rows.iter()
    }

    /// One above the rank of the last-begun of the requests that brought back what the order asks for.
    pub fn top(&self, order: Order) -> u64
        ensures { result ≡ (state_of self.now).top order }
    {
        self.tops.get(order)
    }

    /// The row of a request, if it is live.
    pub fn row_for(&self, frame: u32) -> Option<&Row>
        ensures { option_copied result ≡ row_for frame (state_of self.now).rows }
    {
        self.rows.row_for(frame)
    }

    /// Whether a request is in call.
    pub fn is_requesting(&self) -> bool
        ensures { result ≡ is_requesting_at (state_of self.now) }
    {
        self.rows.is_calling()
    }

    /// Whether a request is in call whose number isn't below this one.
    pub fn is_called_from(&self, frame: u32) -> bool
        ensures { result ≡ list_any (is_row_called_from frame) (state_of self.now).rows }
    {
        self.rows.is_called_from(frame)
    }

    /// Whether a live request holds the buffer.
    pub fn is_held(&self, buffer: u32) -> bool
        ensures { result ≡ is_held_at buffer (state_of self.now).rows }
    {
        self.rows.is_held(buffer)
    }

    /// How many buffers of the stream live requests hold.
    pub fn held_count(&self, stream: u32) -> u64
        ensures { result ≡ held_count_at stream (state_of self.now).rows }
    {
        self.rows.held_count(stream)
    }

    /// Whether a request is live.
    fn is_live(&self, frame: u32) -> bool
        ensures { result ≡ of_live is_row frame (state_of self.now) }
    {
        match self.row_for(frame) {
            Some(_) => true,
            None => false,
        }
    }

    /// Whether a request is in call.
    fn is_called(&self, frame: u32) -> bool
        ensures { result ≡ of_called is_row frame (state_of self.now) }
    {
        match self.row_for(frame) {
            Some(row) => is_in_call(row),
            None => false,
        }
    }

    /// Whether the callback names a request that isn't live.
    pub fn names_idle(&self, event: &HalEvent) -> bool
        ensures { result ≡ names_idle_at event.now (state_of self.now) }
    {
        match event {
            HalEvent::Shutter { frame, .. } => !self.is_live(*frame),
            HalEvent::ErrorRequest { frame } => !self.is_live(*frame),
            HalEvent::ErrorResult { frame } => !self.is_live(*frame),
            HalEvent::ErrorBuffer { frame, .. } => !self.is_live(*frame),
            HalEvent::Results { frame, .. } => !self.is_live(*frame),
            _ => false,
        }
    }

    /// Whether the event is an end of a request that isn't in call.
    fn ends_again(&self, event: &HalEvent) -> bool
        ensures { result ≡ ends_again_at event.now (state_of self.now) }
    {
        match event {
            HalEvent::RequestOk { frame } => !self.is_called(*frame),
            HalEvent::RequestError { frame, .. } => !self.is_called(*frame),
            _ => false,
        }
    }

    /// Whether the event stands for nothing.
    pub fn is_stray(&self, event: &HalEvent) -> bool
        ensures { result ≡ is_stray_at event.now (state_of self.now) }
    {
        self.names_idle(event) || self.ends_again(event)
    }

    /// Notes the next event. `parts` is the device's partial result count; `excused` says what excuses a refusal of the
    /// request that the event begins. The answer is an error only where memory runs out, or where 4,294,967,295
    /// requests were begun; the table is of no use then.
    pub fn note(&mut self, parts: u32, event: &HalEvent, excused: bool) -> Result<(), NoMemory>
        requires { excused ≡ excused_at event.now (state_of self.old) }
        ensures { OnOk result (state_of self.new ≡ next_state parts event.now (state_of self.old)) }
    {
        if is_open_ok(event) {
            return self.clear();
        }
        if self.is_stray(event) {
            return Ok(());
        }
        self.note_heard(parts, event, excused)
    }

    /// Goes back to the state of the empty log.
    fn clear(&mut self) -> Result<(), NoMemory>
        ensures { (k : ℕ) → OnOk result (state_of self.new ≡ first_state k) }
    {
        *self = HalTable::new(self.alloc)?;
        Ok(())
    }

    /// Notes an event that is heard.
    fn note_heard(&mut self, parts: u32, event: &HalEvent, excused: bool) -> Result<(), NoMemory>
        requires { excused ≡ excused_at event.now (state_of self.old) }
        ensures { OnOk result (state_of self.new ≡ hal_state_after parts event.now (state_of self.old)) }
    {
        match event {
            HalEvent::RequestBegin {
                frame,
                same,
                targets,
                ..
            } => {
                let start = Start {
                    frame: *frame,
                    rank: self.device.begun,
                    same: *same,
                    initialized: self.device.initialized,
                    dead: self.device.dead,
                    excused,
                };
                self.begin(parts, start, targets)?;
                note_device(self.alloc, event, &mut self.device)?;
                Ok(())
            }
            _ => {
                let flushing = self.device.flush.out;
                self.rows
                    .note(self.alloc, parts, flushing, event, &mut self.tops)?;
                note_device(self.alloc, event, &mut self.device)?;
                Ok(())
            }
        }
    }

    /// Puts a request that begins in place of the one of its number.
    fn begin(
        &mut self,
        parts: u32,
        start: Start,
        targets: &Listing<HalTarget>,
    ) -> Result<(), NoMemory>
        ensures device { self.new.device ≡ self.old.device }
        ensures rows { OnOk result (self.new.rows ≡ fresh_row parts start.frame start.rank targets.now start.same
            start.initialized start.dead start.excused ∷ rows_but start.frame self.old.rows) }
        ensures tops { OnOk result (IsTopped (row_for start.frame self.old.rows) self.old.tops self.new.tops) }
    {
        raise_found(&mut self.tops, self.rows.row_for(start.frame))?;
        let row = fresh_row(self.alloc, parts, start, targets)?;
        self.rows.begin(self.alloc, row)
    }
}
