//! Threads add numbers through a turnstile, and none is lost.
ghost use Rattle.std.specs.Prelude.{◌≡◌, []};

use std::alloc::Global;
use std::sync::Wait;
use std::test::Fail;
use std::thread::Threads;
use turn_lock::{Tally, Turnstile, add_both, add_by_many};

/// Eight threads add the number 3 in 1,250 turns each: the tally, how many turns they count, and what a look finds then.
fn added_by_eight<R: Threads + Wait + Sync>(
    rt: &R,
    alloc: Global,
    tally: Tally,
) -> (Tally, u64, u64)
    requires { tally.out.items ≡ [] }
{
    let count = tally.count();
    let (turnstile, mut root) = match Turnstile::new(alloc, tally, count) {
        Ok(made) => made,
        Err(tally) => return (tally, 0, 0),
    };
    let added = add_by_many(rt, &turnstile, &mut root, 8, 3, 1_250);
    let found = turnstile.count(&mut root);
    (turnstile.close(root), added, found)
}

#[test]
fn ten_thousand_turns_lose_none(rt: HostRuntime) -> Result<(), Fail> {
    let (tally, added, found) = added_by_eight(&rt, rt.alloc(), Tally::new(rt.alloc(), 8));
    let entries = tally.into_entries();
    assert_eq!(rt; (added, found, entries.len()), (10_000, 10_000, 10_000));
    assert!(rt; entries.iter().all(|entry| *entry == 3));
    Ok(())
}

#[test]
fn two_threads_are_told_their_places(rt: HostRuntime) -> Result<(), Fail> {
    let (tally, ten, twenty) = add_both(&rt, rt.alloc(), Tally::new(rt.alloc(), 1), 10, 20);
    let entries = tally.into_entries();
    let (ten, twenty) = (ten.ok_or("memory")?, twenty.ok_or("memory")?);
    assert_eq!(rt; entries.get(ten).copied(), Some(10));
    assert_eq!(rt; entries.get(twenty).copied(), Some(20));
    Ok(())
}
