//! The loop of a part: turns of its kinds until the run is complete.
ghost use mathlib.Core.List.{IsPrefix};
ghost use Rattle.turn_lock.specs.Lending.{IsDone, IsIdle};
ghost use Rattle.turn_lock.specs.Seats.{view};
ghost use Rattle.shared_camera.specs.Cameras.{script_of};

use crate::crew::Crew;
use crate::gate::Gate;
use crate::idle::{Idle, Next};
use crate::loop_turns::turn;
use crate::part::Part;
use crate::{CamSeat, Shared};
use picture_stages::DigestMemory;
use std::hint::spin_loop;
use std::sync::Wait;
use std::thread::Threads;
use std::time::Clock;

/// The loop with this number makes turns of its kinds until the run is complete, or until the history hasn't grown for
/// very long. It asks for a turn only where the history has grown since it last looked in vain. The jobs that it took out
/// are given back. Where it is a stage's and has a memory of digests, it hashes each distinct picture once.
pub(crate) fn work<R: Threads + Wait + Clock + Sync, G: Gate>(
    rt: &R,
    shared: &Shared,
    seat: &mut CamSeat,
    digests: &mut [DigestMemory],
    gate: &G,
    crew: &Crew,
    number: u32,
)
    requires { IsIdle script_of shared.now.turnstile seat.old }
    ensures done { IsDone script_of shared.now.turnstile (view seat.old) seat.new }
    ensures begins { IsPrefix (view seat.old).seen (view seat.new).seen }
{
    crew.come();
    let part = Part::of_loop(number);
    let mut idle = Idle::new();
    for _ in rt.forever() {
        let moves = shared.moves(seat);
        match idle.next(moves) {
            Next::Watch => spin_loop(),
            Next::Look if turn(rt, shared, seat, digests, gate, part) => idle.end(),
            Next::Look => idle.note(moves),
            Next::Rest if is_over(rt, shared, seat, crew, &mut idle) => break,
            Next::Rest => {}
        }
    }
    crew.go();
}

/// Where the history hasn't grown: whether the loop ends. Where it doesn't, it has waited.
fn is_over<R: Wait + Clock>(
    rt: &R,
    shared: &Shared,
    seat: &mut CamSeat,
    crew: &Crew,
    idle: &mut Idle,
) -> bool
    requires { IsIdle script_of shared.now.turnstile seat.old }
    ensures done { IsDone script_of shared.now.turnstile (view seat.old) seat.new }
    ensures begins { IsPrefix (view seat.old).seen (view seat.new).seen }
{
    if idle.asks() && is_complete(rt, shared, seat) {
        return true;
    }
    if idle.is_over(crew) {
        return true;
    }
    idle.wait(rt);
    false
}

/// Whether the run is complete, in one turn.
fn is_complete<R: Wait>(rt: &R, shared: &Shared, seat: &mut CamSeat) -> bool
    requires { IsIdle script_of shared.now.turnstile seat.old }
    ensures done { IsDone script_of shared.now.turnstile (view seat.old) seat.new }
    ensures begins { IsPrefix (view seat.old).seen (view seat.new).seen }
{
    shared.done_turn(rt, seat)
}
