//! Turns of a tally's threads.
ghost use Rattle.std.specs.Prelude.{◌≡◌, ◌+◌, ◌<◌, ◌^◌, ◌∷◌, Some, IfOk, OnErr, MatchBool, IsPermutation, Contains, length, vec_len, slice_get};
ghost use mathlib.Core.List.{IsPrefix};
ghost use Rattle.turn_lock.specs.Seats.{view};
ghost use Rattle.turn_lock.specs.Lending.{IsReady, SameSeat};
ghost use Rattle.turn_lock.specs.Tallies.{StandFrom, name_of};

use crate::tally::{NoMemory, Tally};
use crate::{Seat, Turnstile};
use std::alloc::Global;
use std::sync::Wait;

/// Adds a number in one turn, and tells the place at which it stands: the last.
pub fn add_turn<R: Wait>(
    rt: &R,
    turnstile: &Turnstile<Tally>,
    seat: &mut Seat<Tally>,
    entry: u64,
) -> Result<usize, NoMemory>
    requires { IsReady name_of turnstile.now seat.old }
    ensures seat { IsReady name_of turnstile.now seat.new × SameSeat (view seat.old) (view seat.new) }
    ensures begins { IsPrefix (view seat.old).seen (view seat.new).seen }
    ensures added { IfOk result
        (λ place. (slice_get (view seat.new).seen place ≡ Some entry) × (place + 1 ≡ length (view seat.new).seen)) }
    ensures jobs { IsPermutation (view seat.new).jobs (view seat.old).jobs }
{
    let mut held = turnstile.enter(rt, seat);
    let place = held.value.add(entry);
    let count = held.value.count();
    turnstile.leave(seat, held, count);
    place
}

/// Borrows a ticket in one turn, unless it is out.
pub fn lend_turn<R: Wait>(
    rt: &R,
    turnstile: &Turnstile<Tally>,
    seat: &mut Seat<Tally>,
    ticket: u64,
) -> Result<bool, NoMemory>
    requires { IsReady name_of turnstile.now seat.old }
    ensures seat { IsReady name_of turnstile.now seat.new × SameSeat (view seat.old) (view seat.new) }
    ensures begins { IsPrefix (view seat.old).seen (view seat.new).seen }
    ensures lent { IfOk result
        (λ done. MatchBool done (IsPermutation (view seat.new).jobs (ticket ∷ (view seat.old).jobs))
        (IsPermutation (view seat.new).jobs (view seat.old).jobs)) }
    ensures err { OnErr result (IsPermutation (view seat.new).jobs (view seat.old).jobs) }
{
    let mut held = turnstile.enter(rt, seat);
    let lent = held.value.lend(ticket);
    let count = held.value.count();
    turnstile.leave(seat, held, count);
    lent
}

/// Gives a ticket back in one turn.
pub fn return_turn<R: Wait>(
    rt: &R,
    turnstile: &Turnstile<Tally>,
    seat: &mut Seat<Tally>,
    ticket: u64,
)
    requires seat { IsReady name_of turnstile.now seat.old }
    requires out { Contains (view seat.old).jobs ticket }
    ensures seat { IsReady name_of turnstile.now seat.new × SameSeat (view seat.old) (view seat.new) }
    ensures begins { IsPrefix (view seat.old).seen (view seat.new).seen }
    ensures returned { IsPermutation (view seat.old).jobs (ticket ∷ (view seat.new).jobs) }
{
    let mut held = turnstile.enter(rt, seat);
    held.value.take_back(ticket);
    let count = held.value.count();
    turnstile.leave(seat, held, count);
}

/// Adds the numbers `from`, `from + 1` and so on, each in a turn of its own, and tells their places.
pub fn add_all<R: Wait>(
    rt: &R,
    alloc: Global,
    turnstile: &Turnstile<Tally>,
    seat: &mut Seat<Tally>,
    from: u64,
    count: u64,
) -> Result<Vec<usize>, NoMemory>
    requires seat { IsReady name_of turnstile.now seat.old }
    requires range { from + count < 2 ^ 64 }
    ensures seat { IsReady name_of turnstile.now seat.new × SameSeat (view seat.old) (view seat.new) }
    ensures begins { IsPrefix (view seat.old).seen (view seat.new).seen }
    ensures added { IfOk result
        (λ places. (vec_len places ≡ count) × StandFrom (view seat.new).seen places.items from) }
    ensures jobs { IsPermutation (view seat.new).jobs (view seat.old).jobs }
{
    let mut places = Vec::new(alloc);
    for offset in 0..count {
        let place = add_turn(rt, turnstile, seat, from + offset)?;
        places.push(place)?;
    }
    Ok(places)
}
