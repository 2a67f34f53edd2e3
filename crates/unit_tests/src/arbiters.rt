//! Two threads share an arbiter: each client has a camera of its own, and no line of the log is lost.
ghost use Rattle.std.specs.Prelude.{◌≡◌, IsTrue};
ghost use Rattle.arbiter_call.specs.Ranges.{is_session};
ghost use Rattle.arbiter_call.specs.Turns.{cameras_of};
ghost use Rattle.turn_lock.specs.Lending.{IsDone, IsIdle};
ghost use Rattle.turn_lock.specs.Seats.{fixed_of, view};

use arbiter_call::{
    Answer, Arbiter, ArbiterLine, CameraId, ClientId, LogLine, Session, answer_turn,
};
use std::alloc::Global;
use std::process::Abort;
use std::sync::Wait;
use std::test::Fail;
use std::thread::{Threads, join_mut};
use turn_lock::{Seat, Turnstile};

/// A client at camera 1, and another at camera 0.
const FIRST: Session = Session {
    client: ClientId(0),
    camera: CameraId(1),
    priority: 10,
    shots: 1,
};

const SECOND: Session = Session {
    client: ClientId(1),
    camera: CameraId(0),
    priority: 11,
    shots: 2,
};

/// How often each thread asks for its camera and leaves it.
const ROUNDS: u32 = 60;

/// Two threads ask, each for a camera of its own, and how often each was served.
fn two_ask<R: Threads + Wait + Sync>(
    rt: &R,
    alloc: Global,
    arbiter: Arbiter,
) -> (Arbiter, (u32, u32))
    requires { arbiter.cameras ≡ 2 }
{
    let lines = arbiter.log().len() as u64;
    let (turnstile, mut root) = match Turnstile::new(alloc, arbiter, lines) {
        Ok(made) => made,
        Err(arbiter) => return (arbiter, (0, 0)),
    };
    let mut other = turnstile.split(&mut root);
    let served = side_by_side(rt, &turnstile, &mut root, &mut other);
    turnstile.join(&mut root, other);
    (turnstile.close(root), served)
}

fn side_by_side<R: Threads + Wait + Sync>(
    rt: &R,
    turnstile: &Turnstile<Arbiter>,
    first: &mut Seat<Arbiter>,
    second: &mut Seat<Arbiter>,
) -> (u32, u32)
    requires cameras { fixed_of cameras_of turnstile.now ≡ 2 }
    requires idle { IsIdle cameras_of turnstile.now first.old × IsIdle cameras_of turnstile.now second.old }
    ensures first { IsDone cameras_of turnstile.now (view first.old) first.new }
    ensures second { IsDone cameras_of turnstile.now (view second.old) second.new }
{
    join_mut(
        rt,
        &mut || -> u32
            requires { IsIdle cameras_of turnstile.now first.now × (fixed_of cameras_of turnstile.now ≡ 2) }
        { ask_often(rt, turnstile, first, FIRST) },
        &mut || -> u32
            requires { IsIdle cameras_of turnstile.now second.now × (fixed_of cameras_of turnstile.now ≡ 2) }
        { ask_often(rt, turnstile, second, SECOND) },
    )
}

/// Asks for a camera and leaves it, over and over, and counts the answers that aren't refusals.
fn ask_often<R: Wait>(
    rt: &R,
    turnstile: &Turnstile<Arbiter>,
    seat: &mut Seat<Arbiter>,
    session: Session,
) -> u32
    requires idle { IsIdle cameras_of turnstile.now seat.old }
    requires range { IsTrue (is_session (fixed_of cameras_of turnstile.now) session) }
    ensures { IsDone cameras_of turnstile.now (view seat.old) seat.new }
{
    let mut served: u32 = 0;
    for _ in 0..ROUNDS {
        let granted = answer_turn(rt, turnstile, seat, ArbiterLine::Connect(session));
        let left = answer_turn(rt, turnstile, seat, ArbiterLine::Leave(session.client));
        served = served
            .wrapping_add(u32::from(granted == Some(Answer::Granted)))
            .wrapping_add(u32::from(left == Some(Answer::Left(session.camera))));
    }
    served
}

#[test]
fn two_threads_share_an_arbiter(rt: HostRuntime) -> Result<(), Fail> {
    let (arbiter, served) = two_ask(&rt, rt.alloc(), Arbiter::new(rt.alloc(), 2)?);
    assert_eq!(rt; served, (2 * ROUNDS, 2 * ROUNDS));
    assert_eq!(rt; arbiter.log().len() as u32, 4 * ROUNDS);
    let mut grants = [0u32; 2];
    for line in arbiter.log() {
        if let LogLine::Grant(session) = line {
            let camera = session.camera.0 as usize;
            if let Some(count) = grants.get_mut(camera) {
                *count = count.wrapping_add(1);
            }
        }
    }
    assert_eq!(rt; grants, [ROUNDS, ROUNDS]);
    Ok(())
}
