//! Taking turns.
ghost use Rattle.std.specs.Prelude.{◌≡◌, true, false, length};
ghost use Rattle.turn_lock.specs.Seats.{view, fixed_of, Carries, HasTurn, IsOf, IsSeatOf, TakesIfFree};
ghost use Rattle.turn_lock.specs.Turns.{Enters, MayLeave, Leaves};

use super::Turnstile;
use crate::kept::Kept;
use crate::plays::{Claim, Queue, Release, Tell};
use crate::seat::{Held, Seat};
use std::hint::spin_loop;
use std::marker::PhantomData;
use std::sync::Wait;

/// So many looks for a free turn before a thread sleeps: a turn is short.
const LOOKS: u32 = 100;

impl<S: Kept> Turnstile<S> {
    /// Waits for the turn, and takes it with the value.
    pub fn enter<R: Wait>(&self, rt: &R, seat: &mut Seat<S>) -> Held<S>
        requires seat { IsSeatOf S.fixed self.now seat.old }
        requires free { (view seat.old).holds ≡ false }
        ensures seat { IsSeatOf S.fixed self.now seat.new }
        ensures turn { Enters S.fixed S.entries S.jobs (fixed_of S.fixed self.now) (view seat.old) result.value
            (view seat.new) }
    {
        if !self.claim_soon(seat) {
            self.claim_queued(rt, seat);
        }
        Held {
            value: self.take_out(seat),
            turn: PhantomData,
        }
    }

    /// Puts the value back, which has so many entries, and gives up the turn.
    pub fn leave(&self, seat: &mut Seat<S>, held: Held<S>, count: u64)
        requires seat { IsSeatOf S.fixed self.now seat.old }
        requires turn { (view seat.old).holds ≡ true }
        requires value { MayLeave S.fixed S.entries S.jobs (fixed_of S.fixed self.now) (view seat.old) held.value }
        requires count { length (S.entries held.value) ≡ count }
        ensures seat { IsSeatOf S.fixed self.now seat.new }
        ensures turn { Leaves S.entries S.jobs (view seat.old) held.value (view seat.new) }
    {
        let Held { value, turn: _ } = held;
        self.put_back(seat, value);
        self.tell(seat, count);
        self.release(seat);
        if self.table.shared.peek(2) > 0 {
            self.table.shared.wake_one(0);
        }
    }

    // Takes the turn if it is free at one of some looks.
    fn claim_soon(&self, seat: &mut Seat<S>) -> bool
        requires seat { IsSeatOf S.fixed self.now seat.old }
        requires free { (view seat.old).holds ≡ false }
        ensures seat { IsOf S.fixed self.now seat.new }
        ensures turn { TakesIfFree S.fixed S.entries S.jobs self.now result seat.old seat.new }
    {
        for _ in 0..LOOKS {
            if self.table.shared.peek(0) == 0 && self.claim(seat) {
                return true;
            }
            spin_loop();
        }
        false
    }

    // Waits until the turn is free and takes it. Meanwhile who leaves sees that a thread waits, and wakes it.
    fn claim_queued<R: Wait>(&self, rt: &R, seat: &mut Seat<S>)
        requires seat { IsSeatOf S.fixed self.now seat.old }
        requires free { (view seat.old).holds ≡ false }
        ensures seat { IsOf S.fixed self.now seat.new }
        ensures turn { HasTurn S.fixed S.entries S.jobs self.now (view seat.old) seat.new }
    {
        let shared = &self.table.shared;
        shared.fetch_add::<Queue>(&mut seat.place, 2, 1);
        self.claim_woken(rt, &mut *seat);
        shared.fetch_sub::<Queue>(&mut seat.place, 2, 1);
    }

    // Tries for the turn, and sleeps until it may be free.
    fn claim_woken<R: Wait>(&self, rt: &R, seat: &mut Seat<S>)
        requires seat { IsSeatOf S.fixed self.now seat.old }
        requires free { (view seat.old).holds ≡ false }
        ensures seat { IsOf S.fixed self.now seat.new }
        ensures turn { HasTurn S.fixed S.entries S.jobs self.now (view seat.old) seat.new }
    {
        for _ in rt.forever() {
            if self.claim(seat) {
                return;
            }
            self.table.shared.park(rt, 0, 1);
        }
        unreachable!()
    }

    // Takes the turn if no seat has it, and the slot with the value.
    fn claim(&self, seat: &mut Seat<S>) -> bool
        requires seat { IsSeatOf S.fixed self.now seat.old }
        requires free { (view seat.old).holds ≡ false }
        ensures seat { IsOf S.fixed self.now seat.new }
        ensures turn { TakesIfFree S.fixed S.entries S.jobs self.now result seat.old seat.new }
    {
        self.table
            .shared
            .compare_exchange::<Claim>(&mut seat.place, 0, 0, 1)
            == 0
    }

    // Takes the value out of the slot.
    fn take_out(&self, seat: &mut Seat<S>) -> S
        requires seat { IsOf S.fixed self.now seat.old }
        requires value { ((view seat.old).holds ≡ true) × ((value : S) × Carries seat.old value) }
        ensures seat { IsSeatOf S.fixed self.now seat.new × (view seat.new ≡ view seat.old) }
        ensures value { Carries seat.old result }
    {
        self.table
            .shared
            .exchange(&mut seat.place, 0, None)
            .unwrap()
    }

    // Puts the value into the slot.
    fn put_back(&self, seat: &mut Seat<S>, value: S)
        requires seat { IsSeatOf S.fixed self.now seat.old }
        requires turn { (view seat.old).holds ≡ true }
        ensures seat { IsOf S.fixed self.now seat.new × (view seat.new ≡ view seat.old) }
        ensures value { Carries seat.new value }
    {
        let empty = self.table.shared.exchange(&mut seat.place, 0, Some(value));
        let None = empty else { unreachable!() };
    }

    // Tells how many entries the value in the slot has.
    fn tell(&self, seat: &mut Seat<S>, count: u64)
        requires seat { IsOf S.fixed self.now seat.old }
        requires turn { (view seat.old).holds ≡ true }
        requires value { (value : S) × Carries seat.old value
            × MayLeave S.fixed S.entries S.jobs (fixed_of S.fixed self.now) (view seat.old) value
            × (length (S.entries value) ≡ count) }
        ensures seat { IsOf S.fixed self.now seat.new }
        ensures value { (value : S) → Carries seat.old value →
            Carries seat.new value × (view seat.new ≡ record (view seat.old) { seen = S.entries value }) }
    {
        self.table.shared.store::<Tell>(&mut seat.place, 1, count);
    }

    // Gives up the turn, and the slot with the value, whose entries were told.
    fn release(&self, seat: &mut Seat<S>)
        requires seat { IsOf S.fixed self.now seat.old }
        requires turn { (view seat.old).holds ≡ true }
        requires value { (value : S) × Carries seat.old value
            × MayLeave S.fixed S.entries S.jobs (fixed_of S.fixed self.now) (view seat.old) value
            × ((view seat.old).seen ≡ S.entries value) }
        ensures seat { IsSeatOf S.fixed self.now seat.new }
        ensures turn { (value : S) → Carries seat.old value →
            Leaves S.entries S.jobs (view seat.old) value (view seat.new) }
    {
        self.table.shared.store::<Release>(&mut seat.place, 0, 0);
    }
}
