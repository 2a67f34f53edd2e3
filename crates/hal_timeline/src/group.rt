//! What is drawn of each event of a log, with what it breaks of the rules, in one pass.
ghost use Rattle.std.specs.Prelude.{◌≡◌, ◌<◌, ◌∷◌, [], IfOk, IsTrue, List, OnOk, length, reverse, ℕ};
ghost use Rattle.std.specs.List.{list_all};
ghost use Rattle.hal_model.specs.declared.event.HalEvent.{HalEvent as AnEvent};
ghost use Rattle.hal_judge.specs.Judged.{IsOf};
ghost use Rattle.hal_model.specs.Fits.{is_well_made};
ghost use Rattle.hal_timeline.specs.Groups.{all_groups, group_of, is_broken, is_changed, live_count, number_at, shown_event};
ghost use Rattle.hal_timeline.specs.Passes.{IsPast};

use crate::piece::pieces_of;
use crate::walk::Walk;
use cam_types::{Listing, NoMemory};
use hal_judge::{Place, judge_next, rules_for};
use hal_model::{Breach, EventList, HalEvent, write_event};
use hal_table::HalTable;
use std::alloc::Global;
use timeline_model::{Group, Series, front_of};

/// The most bytes of an event's line that are shown.
const SHOWN: usize = 160;

/// What stands after the events so far, and what they broke.
#[derive(Drop)]
pub struct Pass {
    pub walk: Walk,
    pub table: HalTable,
    pub breaches: Vec<Breach>,
}

/// The number of the line of the event at a place.
pub fn number_at(lines: &Listing<u32>, place: u32) -> u32
    ensures { result ≡ number_at lines.now place }
{
    match lines.get(place) {
        Some(line) => *line,
        None => 0,
    }
}

/// The front of an event's line.
#[tactic(auto, unfolding(crate::specs::Groups::shown_event))]
fn shown_event(alloc: Global, event: &HalEvent) -> Result<Series<u8>, NoMemory>
    requires { IsTrue (is_well_made event.now) }
    ensures { IfOk result (λ title. title ≡ shown_event event.now) }
{
    let mut line = String::new(alloc);
    write_event(&mut line, event)?;
    Series::copied(alloc, front_of(line.as_bytes(), SHOWN))
}

/// Whether the level or the band is another one.
fn is_changed(level: u64, next: u64, stopping: bool, then_stopping: bool) -> bool
    ensures { result ≡ is_changed level next stopping then_stopping }
{
    !(level == next && stopping == then_stopping)
}

impl Pass {
    /// Before the first event.
    pub fn new(alloc: Global) -> Result<Pass, NoMemory>
        ensures { IfOk result (λ pass. (k : ℕ) → IsPast k [] pass) }
    {
        Ok(Pass {
            walk: Walk::new(alloc),
            table: HalTable::new(alloc)?,
            breaches: Vec::new(alloc),
        })
    }

    /// How many requests are live.
    fn live(&self) -> u64
        ensures { (k : ℕ) (past : List AnEvent) → IsOf k past self.now.table → result ≡ live_count k past }
    {
        self.table.rows().len() as u64
    }

    /// Judges the event at a place, and notes it. It answers whether the event breaks a rule.
    fn judge(
        &mut self,
        alloc: Global,
        parts: u32,
        place: u32,
        event: &HalEvent,
    ) -> Result<bool, NoMemory>
        ensures past { (past : List AnEvent) → IsPast parts past self.old → length past ≡ place →
            OnOk result (IsPast parts (event.now ∷ past) self.new) }
        ensures broken { (past : List AnEvent) → IsPast parts past self.old → length past ≡ place →
            IfOk result (λ broken. broken ≡ is_broken parts event.now past) }
    {
        let before = self.breaches.len();
        judge_next(
            alloc,
            Place { line: place, parts },
            rules_for(false),
            event,
            &mut self.table,
            &mut self.breaches,
        )?;
        self.walk.note(event, place)?;
        Ok(self.breaches.len() > before)
    }

    /// What is drawn of the event at a place, which is noted.
    fn draw(
        &mut self,
        alloc: Global,
        parts: u32,
        lines: &Listing<u32>,
        place: u32,
        event: &HalEvent,
    ) -> Result<Group, NoMemory>
        requires { IsTrue (is_well_made event.now) }
        ensures past { (past : List AnEvent) → IsPast parts past self.old → length past ≡ place →
            OnOk result (IsPast parts (event.now ∷ past) self.new) }
        ensures drawn { (past : List AnEvent) → IsPast parts past self.old → length past ≡ place →
            IfOk result (λ group. group ≡ group_of parts lines.now event.now past) }
    {
        let level = self.live();
        let stopping = self.walk.is_stopping();
        let pieces = pieces_of(alloc, event, &self.walk)?;
        let broken = self.judge(alloc, parts, place, event)?;
        let next = self.live();
        let then_stopping = self.walk.is_stopping();
        Ok(Group {
            place,
            line: u64::from(number_at(lines, place)),
            title: shown_event(alloc, event)?,
            pieces,
            level: next,
            stopping: then_stopping,
            counted: is_changed(level, next, stopping, then_stopping),
            broken,
        })
    }
}

/// What is drawn of each event, and what stands after all of them.
pub fn draw_all(
    alloc: Global,
    pass: &mut Pass,
    parts: u32,
    lines: &Listing<u32>,
    events: &[HalEvent],
) -> Result<Series<Group>, NoMemory>
    requires made { IsTrue (list_all is_well_made events.now) }
    requires first { IsPast parts [] pass.old }
    requires few { length events.now < 4294967296 }
    ensures past { OnOk result (IsPast parts (reverse events.now) pass.new) }
    ensures drawn { IfOk result (λ groups. groups ≡ all_groups parts lines.now (reverse events.now)) }
{
    let mut groups = Series::new(alloc);
    for (place, event) in events.iter().enumerate() {
        let group = pass.draw(alloc, parts, lines, place as u32, event)?;
        groups.push(group)?;
    }
    Ok(groups)
}
