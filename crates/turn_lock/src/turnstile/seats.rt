//! Making a turnstile, splitting and joining its seats, and closing it.
ghost use Rattle.std.specs.Prelude.{◌≡◌, [], false, IfOk, IfErr, IsPermutation, length};
ghost use Rattle.turn_lock.specs.Rule.{NoneTwice};
ghost use Rattle.turn_lock.specs.Seats.{view, fixed_of, IsSeatOf};
ghost use Rattle.turn_lock.specs.Views.{root_view};
ghost use Rattle.turn_lock.specs.Turns.{splitting, split_off, Joins};

use super::Turnstile;
use crate::kept::Kept;
use crate::plays::{Cut, Glue, Look};
use crate::seat::Seat;
use atomic_table::{Refused, Table};
use std::alloc::Global;
use std::snapshot::Snapshot;

impl<S: Kept> Turnstile<S> {
    /// A turnstile round the value, which has so many entries, and its root. `Err` comes only for want of memory, and
    /// gives the value back.
    pub fn new(alloc: Global, value: S, count: u64) -> Result<(Turnstile<S>, Seat<S>), S>
        requires idle { S.jobs value ≡ [] }
        requires count { length (S.entries value) ≡ count }
        ensures made { IfOk result (λ t. IsSeatOf S.fixed t.0 t.1 × (fixed_of S.fixed t.0 ≡ S.fixed value)) }
        ensures root { IfOk result (λ t. view t.1 ≡ root_view (S.fixed value) (S.entries value)) }
        ensures back { IfErr result (λ same. same ≡ value) }
    {
        let about = Snapshot::of(&value);
        let Ok(mut slots) = Vec::with_capacity(alloc, 1) else {
            return Err(value);
        };
        slots.push_reserved(Some(value));
        match Table::new(alloc, &[0, count, 0], slots, &about) {
            Ok((table, place)) => Ok((Turnstile { table }, Seat { place })),
            Err(Refused { mut slots }) => {
                let slot = slots.pop();
                slots.destroy_empty();
                Err(slot.unwrap().unwrap())
            }
        }
    }

    /// A new seat, which has seen what the root has, and has no job.
    pub fn split(&self, root: &mut Seat<S>) -> Seat<S>
        requires seat { IsSeatOf S.fixed self.now root.old }
        requires root { (view root.old).number ≡ 0 }
        ensures seats { IsSeatOf S.fixed self.now root.new × IsSeatOf S.fixed self.now result }
        ensures root { view root.new ≡ splitting (view root.old) }
        ensures split_off { view result ≡ split_off (view root.old) }
    {
        Seat {
            place: self.table.shared.split_seat::<Cut>(&mut root.place),
        }
    }

    /// The root takes in another seat, and has then seen all that both had.
    pub fn join(&self, root: &mut Seat<S>, other: Seat<S>)
        requires seats { IsSeatOf S.fixed self.now root.old × IsSeatOf S.fixed self.now other }
        requires root { (view root.old).number ≡ 0 }
        requires done { ((view other).holds ≡ false) × ((view other).jobs ≡ []) }
        ensures seat { IsSeatOf S.fixed self.now root.new }
        ensures joined { Joins (view root.old) (view other) (view root.new) }
    {
        let Seat { place } = other;
        let shared = &self.table.shared;
        shared.join_seat::<Glue>(&mut root.place, place);
        shared.load::<Look>(&mut root.place, 0);
    }

    /// The value, once all other seats were joined. Nobody added to what the root has seen, and only its jobs are out.
    pub fn close(self, root: Seat<S>) -> S
        requires seat { IsSeatOf S.fixed self root }
        requires root { (view root).number ≡ 0 }
        requires alone { (view root).others ≡ [] }
        requires free { (view root).holds ≡ false }
        ensures fixed { S.fixed result ≡ fixed_of S.fixed self }
        ensures entries { S.entries result ≡ (view root).seen }
        ensures jobs { IsPermutation (S.jobs result) (view root).jobs }
        ensures once { NoneTwice (S.jobs result) }
    {
        let Turnstile { table } = self;
        let Seat { place } = root;
        let mut closed = table.close_with(place);
        let slot = closed.take(0);
        closed.free();
        slot.unwrap()
    }
}
