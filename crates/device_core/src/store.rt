//! The store: rows of the open frames with all that is held for them.
ghost use Rattle.std.specs.Prelude.{◌≡◌, ◌<◌, ◌≤◌, ◌↔◌, [], ◌∷◌, ◌++◌, None, true, IfErr, IfOk, IfSome, IsErr, IsTrue, OnErr, OnOk, length, slice_get, vec_capacity};
ghost use Rattle.std.specs.List.{list_all, list_any};
ghost use Rattle.cam_types.specs.Four.{four_list};
ghost use Rattle.cam_types.specs.Metadata.{range_fault};
ghost use Rattle.cam_types.specs.Picture.{is_offered};
ghost use Rattle.device_rows.specs.Kept.{is_fresh, rise_from};
ghost use Rattle.device_rows.specs.Rows.{row_at};
ghost use Rattle.device_core.specs.Stored.{AreParked, are_before, is_some_target, no_plan, specs_of, with_plan, with_rows};

use crate::buffers::Held;
use crate::hold::hold;
use crate::readouts::{Scratch, Slot};
use buffer_pool::Parked;
use cam_types::{Four, FrameNo, NoMemory, Readout, RowView};
use device_rows::Table;
use request_checks::Plan;
use std::alloc::Global;
use std::marker::Model;

/// The rows of the open frames, with the buffers that wait and those that are filled, and a readout for each row that
/// may stand. A contract sees the plan, how many rows may stand, and those that stand. It can't be let go: `scrap` ends
/// it.
pub struct Store {
    pub(crate) plan: Plan,
    pub(crate) table: Table<Held>,
    pub(crate) slots: Vec<Slot>,
    pub(crate) spares: Vec<Readout>,
}

impl Model for Store {
    ghost use Rattle.std.specs.Prelude.{length, vec_capacity};
    ghost use Rattle.device_core.specs.Stored.{Stored, views};
    ghost use Rattle.device_core.specs.Kept.{IsKept};

    ghost Value = { Stored };

    ghost view = { λ s. record { plan = s.plan; capacity = s.table.capacity; rows = views s.table.rows } };

    ghost invariant = { λ s. IsKept s.plan s.table.rows s.table.capacity s.slots.items (length s.spares.items)
        (vec_capacity s.slots) (vec_capacity s.spares) };
}

impl Store {
    /// A store with no stream, with room for so many rows and as many readouts.
    pub fn new(alloc: Global, rows: u32) -> Result<Store, NoMemory>
        requires { (0 < rows) × (rows ≤ 16) }
        ensures { IfOk result (λ store. store ≡ record { plan = no_plan; capacity = rows; rows = [] }) }
    {
        let slots = Vec::with_capacity(alloc, rows as usize)?;
        let spares = make_readouts(alloc, rows as usize)?;
        let table = Table::new(alloc, rows)?;
        let none = Four {
            a: None,
            b: None,
            c: None,
            d: None,
        };
        Ok(Store {
            plan: Plan { streams: none },
            table,
            slots,
            spares,
        })
    }

    /// Takes the streams of a configuration, whose formats and sizes are offered. No row stands.
    pub fn configure(&mut self, plan: Plan)
        requires empty { self.old.rows ≡ [] }
        requires offered { IsTrue (list_all is_offered (specs_of plan)) }
        ensures { self.new ≡ with_plan plan self.old }
    {
        self.plan = plan;
    }

    /// How many rows stand.
    pub fn len(&self) -> u32
        ensures { result ≡ length self.now.rows }
    {
        self.table.len()
    }

    /// The row of a frame. None exactly where no such row stands.
    pub fn view(&self, frame: FrameNo) -> Option<RowView>
        ensures { result ≡ row_at frame.0 self.now.rows }
    {
        self.table.view(frame)
    }

    /// The row at a place, from 0 on in order of frames. None exactly where so many rows don't stand.
    pub fn at(&self, place: u32) -> Option<RowView>
        ensures { result ≡ slice_get self.now.rows place }
    {
        self.table.at(place)
    }

    /// Adds the row of a frame behind all others, with the buffers of its targets; hands these back exactly where as
    /// many rows stand as may. The row is as just sent; its targets are streams of the plan, in ascending order.
    pub fn admit(&mut self, row: RowView, parked: Four<Parked>) -> Result<(), Four<Parked>>
        requires later { IsTrue (are_before row.frame.0 self.old.rows) }
        requires fresh { IsTrue (is_fresh row) }
        requires range { range_fault row.settings ≡ None }
        requires streams { IsTrue (rise_from 0 (length (specs_of self.old.plan)) (four_list row.targets)) }
        requires some { IsTrue (is_some_target (four_list row.targets)) }
        requires parked { AreParked (specs_of self.old.plan) row.targets parked }
        ensures full { IsErr result ↔ (length self.old.rows ≡ self.old.capacity) }
        ensures ok { OnOk result (self.new ≡ with_rows (self.old.rows ++ row ∷ []) self.old) }
        ensures handed_back { IfErr result (λ back. back ≡ parked) }
        ensures err { OnErr result (self.new ≡ self.old) }
    {
        let Some(readout) = self.spares.pop() else {
            return Err(parked);
        };
        let held = hold(self.plan, row.targets, parked);
        self.slots.push_reserved(Slot::Spare(Scratch::new(readout)));
        match self.table.admit(row, held) {
            Ok(()) => Ok(()),
            Err(_) => unreachable!(),
        }
    }
}

/// So many readouts.
fn make_readouts(alloc: Global, count: usize) -> Result<Vec<Readout>, NoMemory>
    ensures count { IfOk result (λ readouts. length readouts.items ≡ count) }
    ensures room { IfOk result (λ readouts. count ≤ vec_capacity readouts) }
{
    let mut readouts = Vec::with_capacity(alloc, count)?;
    for _ in 0..count {
        readouts.push(Readout::new(alloc)?)?;
    }
    Ok(readouts)
}
