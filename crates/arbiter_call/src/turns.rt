//! Turns of threads at an arbiter that they share.
ghost use Rattle.std.specs.Prelude.{◌≡◌, ◌+◌, ◌<◌, IfNone, IfSome, IsTrue, length};
ghost use mathlib.Core.List.{IsPrefix};
ghost use Rattle.arbiter_call.specs.Ranges.{is_line};
ghost use Rattle.arbiter_call.specs.Turns.{AnswersInTurn, cameras_of};
ghost use Rattle.turn_lock.specs.Lending.{IsDone, IsIdle};
ghost use Rattle.turn_lock.specs.Seats.{fixed_of, view};

use crate::answer::Answer;
use crate::arbiter::Arbiter;
use crate::line::ArbiterLine;
use crate::session::LOG_LINES;
use std::sync::Wait;
use turn_lock::{Seat, Turnstile};

/// Answers a line in one turn. None where the log has no room for the lines of one more answer; then it is as it was.
pub fn answer_turn<R: Wait>(
    rt: &R,
    turnstile: &Turnstile<Arbiter>,
    seat: &mut Seat<Arbiter>,
    line: ArbiterLine,
) -> Option<Answer>
    requires idle { IsIdle cameras_of turnstile.now seat.old }
    requires range { IsTrue (is_line (fixed_of cameras_of turnstile.now) line) }
    ensures done { IsDone cameras_of turnstile.now (view seat.old) seat.new }
    ensures begins { IsPrefix (view seat.old).seen (view seat.new).seen }
    ensures answered { IfSome result (λ answer. AnswersInTurn (fixed_of cameras_of turnstile.now) line
        (view seat.old).seen answer (view seat.new).seen) }
    ensures full { IfNone result (LOG_LINES < length (view seat.new).seen + 2) }
{
    let mut held = turnstile.enter(rt, seat);
    let answer = held.value.try_answer(line);
    let lines = held.value.log().len() as u64;
    turnstile.leave(seat, held, lines);
    answer
}
