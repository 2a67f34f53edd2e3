//! The loops of all parts, side by side.
ghost use Rattle.std.specs.Prelude.{◌≡◌, ◌↔◌, ◌≤◌, IsTrue};
ghost use denote.Param.Send.{IsSync};
ghost use Rattle.run_model.specs.History.{trace_of};
ghost use Rattle.run_model.specs.Run.{IsRun};
ghost use Rattle.trace_model.specs.Complete.{IsComplete};
ghost use Rattle.turn_lock.specs.Lending.{IsIdle, IsRootAgain};
ghost use Rattle.turn_lock.specs.Seats.{fixed_of, view};
ghost use Rattle.shared_camera.specs.Cameras.{script_of};
ghost use Rattle.shared_camera.specs.Turns.{history_in};

use crate::crew::Crew;
use crate::gate::Gate;
use crate::loops::work;
use crate::part::SINGLE_PARTS;
use crate::{CamSeat, Shared};
use picture_stages::DigestMemory;
use std::sync::Wait;
use std::thread::{Threads, join_mut};
use std::time::Clock;

/// Runs the loops of all parts side by side, with so many stages, until the camera's run is complete, or until each loop
/// found no work for very long. It answers whether the run is complete. Each loop has a seat of its own, which is joined
/// when the loop has ended. Each stage has one of the memories of digests to itself, as far as there are so many.
pub fn run_workers<R: Threads + Wait + Clock + Sync, G: Gate + Sync>(
    rt: &R,
    shared: &Shared,
    root: &mut CamSeat,
    workers: u32,
    digests: &mut [DigestMemory],
    gate: &G,
) -> bool
    requires idle { IsIdle script_of shared.now.turnstile root.old }
    requires root { (view root.old).number ≡ 0 }
    requires least { 1 ≤ workers }
    requires most { workers ≤ 8 }
    // The root has no job and holds no turn, all that it had seen begins what it has seen, and all other seats that
    // were split off are joined.
    ensures root { IsRootAgain script_of shared.now.turnstile (view root.old) root.new }
    ensures run { IsRun (fixed_of script_of shared.now.turnstile) (history_in (view root.new)) }
    ensures done { IsTrue result ↔ IsComplete (fixed_of script_of shared.now.turnstile)
        (trace_of (history_in (view root.new))) }
{
    let loops = SINGLE_PARTS + workers;
    side_by_side(rt, shared, root, digests, gate, &Crew::of(loops), loops);
    shared.done_turn(rt, root)
}

/// Runs the loops with the numbers from 1 to this one, each on a seat of its own. The stages' loops are the last.
fn side_by_side<R: Threads + Wait + Clock + Sync, G: Gate + Sync>(
    rt: &R,
    shared: &Shared,
    root: &mut CamSeat,
    digests: &mut [DigestMemory],
    gate: &G,
    crew: &Crew,
    loops: u32,
)
    requires idle { IsIdle script_of shared.now.turnstile root.old }
    requires root { (view root.old).number ≡ 0 }
    ensures { IsRootAgain script_of shared.now.turnstile (view root.old) root.new }
{
    if loops == 0 {
        return;
    }
    let before = loops.saturating_sub(SINGLE_PARTS + 1) as usize;
    let (others, own) = digests.split_at_mut(before.min(digests.len()));
    let mut other = shared.split(root);
    join_mut(
        rt,
        &mut ||
            requires { IsSync R.row × IsSync G.row × IsIdle script_of shared.now.turnstile other }
        { work(rt, shared, &mut other, own, gate, crew, loops) },
        &mut ||
            requires { IsSync R.row × IsSync G.row × IsIdle script_of shared.now.turnstile root.now
                × ((view root.now).number ≡ 0) × (1 ≤ loops) }
            ensures { IsRootAgain script_of shared.entry.now.turnstile (view root.entry.now) root.exit.now }
        { side_by_side(rt, shared, root, others, gate, crew, loops - 1) },
    );
    shared.join(root, other);
}
