//! A tally that two threads share.
ghost use Rattle.std.specs.Prelude.{◌≡◌, ◌≤◌, [], Some, IfSome, slice_get};
ghost use mathlib.Core.List.{IsPrefix};
ghost use Rattle.turn_lock.specs.Seats.{view};
ghost use Rattle.turn_lock.specs.Lending.{IsReady, IsBack, IsIdle, IsDone, IsRootAgain};
ghost use Rattle.turn_lock.specs.Tallies.{name_of};
ghost use denote.Param.Send.{IsSync};

use crate::tally::Tally;
use crate::turns::add_turn;
use crate::{Seat, Turnstile};
use std::alloc::Global;
use std::sync::Wait;
use std::thread::{Threads, join_mut};

/// Two threads add a number each. The tally comes back, and with the places, if there was memory for all, at which the
/// numbers stand.
pub fn add_both<R: Threads + Wait + Sync>(
    rt: &R,
    alloc: Global,
    tally: Tally,
    x: u64,
    y: u64,
) -> (Tally, Option<usize>, Option<usize>)
    requires { tally.out.items ≡ [] }
    ensures name { result.0.name ≡ tally.name }
    ensures begins { IsPrefix tally.entries.items result.0.entries.items }
    ensures first { IfSome result.1 (λ place. slice_get result.0.entries.items place ≡ Some x) }
    ensures second { IfSome result.2 (λ place. slice_get result.0.entries.items place ≡ Some y) }
{
    let count = tally.count();
    let (turnstile, mut root) = match Turnstile::new(alloc, tally, count) {
        Ok(made) => made,
        Err(tally) => return (tally, None, None),
    };
    let mut first = turnstile.split(&mut root);
    let mut second = turnstile.split(&mut root);
    let (a, b) = side_by_side(rt, &turnstile, &mut first, &mut second, x, y);
    turnstile.join(&mut root, second);
    turnstile.join(&mut root, first);
    (turnstile.close(root), a, b)
}

// Two turns in threads of their own.
fn side_by_side<R: Threads + Wait + Sync>(
    rt: &R,
    turnstile: &Turnstile<Tally>,
    first: &mut Seat<Tally>,
    second: &mut Seat<Tally>,
    x: u64,
    y: u64,
) -> (Option<usize>, Option<usize>)
    requires { IsReady name_of turnstile.now first.old × IsReady name_of turnstile.now second.old }
    ensures back { IsBack name_of turnstile.now (view first.old) first.new
        × IsBack name_of turnstile.now (view second.old) second.new }
    ensures first { IfSome result.0 (λ place. slice_get (view first.new).seen place ≡ Some x) }
    ensures second { IfSome result.1 (λ place. slice_get (view second.new).seen place ≡ Some y) }
{
    join_mut(
        rt,
        &mut || add_turn(rt, turnstile, first, x).ok(),
        &mut || add_turn(rt, turnstile, second, y).ok(),
    )
}

/// So many threads add the number `entry`, each `count` times, and so many of them it was added in all.
/// Each thread but the last works on a seat of its own, which is joined when it has ended.
pub fn add_by_many<R: Threads + Wait + Sync>(
    rt: &R,
    turnstile: &Turnstile<Tally>,
    root: &mut Seat<Tally>,
    threads: u32,
    entry: u64,
    count: u32,
) -> u64
    requires idle { IsIdle name_of turnstile.now root.old }
    requires root { (view root.old).number ≡ 0 }
    ensures { IsRootAgain name_of turnstile.now (view root.old) root.new }
{
    if threads < 2 {
        return add_often(rt, turnstile, root, entry, count);
    }
    let mut other = turnstile.split(root);
    let (by_other, by_more) = join_mut(
        rt,
        &mut || -> u64
            requires { IsIdle name_of turnstile.now other }
        { add_often(rt, turnstile, &mut other, entry, count) },
        &mut || -> u64
            requires { IsSync R.row × IsIdle name_of turnstile.now root.now × ((view root.now).number ≡ 0)
                × (2 ≤ threads) }
            ensures { IsRootAgain name_of turnstile.entry.now (view root.entry.now) root.exit.now }
        { add_by_many(rt, turnstile, root, threads - 1, entry, count) },
    );
    turnstile.join(root, other);
    by_other.saturating_add(by_more)
}

// Adds the number so often, each time in a turn of its own, until memory runs out.
fn add_often<R: Wait>(
    rt: &R,
    turnstile: &Turnstile<Tally>,
    seat: &mut Seat<Tally>,
    entry: u64,
    count: u32,
) -> u64
    requires { IsIdle name_of turnstile.now seat.old }
    ensures done { IsDone name_of turnstile.now (view seat.old) seat.new }
    ensures begins { IsPrefix (view seat.old).seen (view seat.new).seen }
{
    let mut added = 0;
    for _ in 0..count {
        if !add_once(rt, turnstile, seat, entry) {
            break;
        }
        added += 1;
    }
    added
}

fn add_once<R: Wait>(
    rt: &R,
    turnstile: &Turnstile<Tally>,
    seat: &mut Seat<Tally>,
    entry: u64,
) -> bool
    requires { IsIdle name_of turnstile.now seat.old }
    ensures done { IsDone name_of turnstile.now (view seat.old) seat.new }
    ensures begins { IsPrefix (view seat.old).seen (view seat.new).seen }
{
    add_turn(rt, turnstile, seat, entry).is_ok()
}
