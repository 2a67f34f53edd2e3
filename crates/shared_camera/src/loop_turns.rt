//! One step of a kind, in one turn, or in two between which a job is worked on.
ghost use Rattle.std.specs.Prelude.{◌≡◌, IsTrue};
ghost use mathlib.Core.List.{IsPrefix};
ghost use Rattle.turn_lock.specs.Lending.{IsDone, IsIdle};
ghost use Rattle.turn_lock.specs.Seats.{view};
ghost use Rattle.shared_camera.specs.Cameras.{script_of};
ghost use Rattle.shared_camera.specs.Moves.{are_alone};

use crate::gate::Gate;
use crate::part::{ALL, CLIENT, CONSUMER, Part, REQUESTS, RESULTS};
use crate::{CamSeat, Shared, Shuttered, Turned};
use fill_jobs::{FillJob, FilledJob};
use picture_stages::DigestMemory;
use run_model::Kind;
use std::sync::Wait;
use std::thread::Threads;

/// In so many bands the rows of a picture are drawn side by side: in one, since a thread costs more than it saves on
/// pictures of this size (docs/DECISIONS.md, Pictures).
const BANDS: u32 = 1;

/// Makes a step of the part, and answers whether there was one.
pub(crate) fn turn<R: Threads + Wait + Sync, G: Gate>(
    rt: &R,
    shared: &Shared,
    seat: &mut CamSeat,
    digests: &mut [DigestMemory],
    gate: &G,
    part: Part,
) -> bool
    requires { IsIdle script_of shared.now.turnstile seat.old }
    ensures done { IsDone script_of shared.now.turnstile (view seat.old) seat.new }
    ensures begins { IsPrefix (view seat.old).seen (view seat.new).seen }
{
    match part {
        Part::Sensor => expose(rt, shared, seat),
        Part::Stage => help(rt, shared, seat) || fill(rt, shared, seat, digests, gate),
        Part::Client => step(rt, shared, seat, CLIENT),
        Part::Requests => step(rt, shared, seat, REQUESTS),
        Part::Results => step(rt, shared, seat, RESULTS),
        Part::Consumer => step(rt, shared, seat, CONSUMER),
    }
}

/// Makes a step of another part than the stages: none waits for a loop that sleeps while a stage's is awake.
fn help<R: Threads + Wait + Sync>(rt: &R, shared: &Shared, seat: &mut CamSeat) -> bool
    requires { IsIdle script_of shared.now.turnstile seat.old }
    ensures done { IsDone script_of shared.now.turnstile (view seat.old) seat.new }
    ensures begins { IsPrefix (view seat.old).seen (view seat.new).seen }
{
    step(rt, shared, seat, ALL) || expose(rt, shared, seat)
}

/// Makes a step of no job.
fn step<R: Wait>(rt: &R, shared: &Shared, seat: &mut CamSeat, kinds: &[Kind]) -> bool
    requires idle { IsIdle script_of shared.now.turnstile seat.old }
    requires alone { IsTrue (are_alone kinds.now) }
    ensures done { IsDone script_of shared.now.turnstile (view seat.old) seat.new }
    ensures begins { IsPrefix (view seat.old).seen (view seat.new).seen }
{
    let answer = shared.step_turn(rt, seat, kinds);
    matches!(answer, Turned::Did(_))
}

/// Exposes a frame between two turns.
fn expose<R: Threads + Wait + Sync>(rt: &R, shared: &Shared, seat: &mut CamSeat) -> bool
    requires { IsIdle script_of shared.now.turnstile seat.old }
    ensures done { IsDone script_of shared.now.turnstile (view seat.old) seat.new }
    ensures begins { IsPrefix (view seat.old).seen (view seat.new).seen }
{
    match shared.shutter_turn(rt, seat) {
        Shuttered::Began(_, job) => {
            shared.sensor_done_turn(rt, seat, job.expose_bands(rt, BANDS));
            true
        }
        Shuttered::NotBegun => false,
    }
}

/// Fills a buffer between two turns.
fn fill<R: Threads + Wait + Sync, G: Gate>(
    rt: &R,
    shared: &Shared,
    seat: &mut CamSeat,
    digests: &mut [DigestMemory],
    gate: &G,
) -> bool
    requires { IsIdle script_of shared.now.turnstile seat.old }
    ensures done { IsDone script_of shared.now.turnstile (view seat.old) seat.new }
    ensures begins { IsPrefix (view seat.old).seen (view seat.new).seen }
{
    match shared.take_fill_turn(rt, seat) {
        Some(job) => {
            shared.fill_done_turn(rt, seat, pass(rt, digests, gate, job));
            true
        }
        None => false,
    }
}

/// Fills a buffer, within the gate: with the first memory of digests, where there is one.
fn pass<R: Threads + Sync, G: Gate>(
    rt: &R,
    digests: &mut [DigestMemory],
    gate: &G,
    job: FillJob,
) -> FilledJob
    ensures { result ≡ job }
{
    let frame = job.frame();
    let stream = job.stream();
    gate.enter(frame, stream);
    let filled = match digests.first_mut() {
        Some(memory) => job.fill_with(memory),
        None => job.fill_bands(rt, BANDS),
    };
    gate.leave(frame, stream);
    filled
}
