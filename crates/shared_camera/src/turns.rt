//! Turns that hand out no job.
ghost use Rattle.std.specs.Prelude.{◌≡◌, ◌↔◌, IsPermutation, IsTrue};
ghost use Rattle.run_model.specs.History.{trace_of};
ghost use Rattle.trace_model.specs.Complete.{IsComplete};
ghost use Rattle.turn_lock.specs.Lending.{IsReady, SameSeat};
ghost use Rattle.turn_lock.specs.Seats.{fixed_of, view};
ghost use Rattle.shared_camera.specs.Cameras.{script_of};
ghost use Rattle.shared_camera.specs.Choices.{first_of_kinds};
ghost use Rattle.shared_camera.specs.Moves.{are_alone};
ghost use Rattle.shared_camera.specs.Turns.{AnswersTurn, IsAlone, IsTurn, history_in};

use crate::camera::CamSeat;
use crate::moves::make_first;
use crate::shared::Shared;
use run_model::Kind;
use service_core::Step;
use std::sync::Wait;

impl Shared {
    /// Makes the first ready step of the first of these kinds that has one, in one turn. The kinds are of no job.
    pub fn step_turn<R: Wait>(&self, rt: &R, seat: &mut CamSeat, kinds: &[Kind]) -> Step
        requires ready { IsReady script_of self.now.turnstile seat.old }
        requires alone { IsTrue (are_alone kinds.now) }
        ensures seat { IsReady script_of self.now.turnstile seat.new × SameSeat (view seat.old) (view seat.new) }
        ensures turn { IsTurn (fixed_of script_of self.now.turnstile) (view seat.old) (view seat.new) }
        ensures answer { AnswersTurn (fixed_of script_of self.now.turnstile) (first_of_kinds kinds.now) (view seat.old)
            result (view seat.new) }
        ensures jobs { IsPermutation (view seat.new).jobs (view seat.old).jobs }
    {
        let mut held = self.turnstile.enter(rt, seat);
        let answer = make_first(&mut held.value.service, kinds);
        held.value.service.is_a_run();
        let moves = held.value.service.moves();
        self.turnstile.leave(seat, held, moves);
        answer
    }

    /// Whether the trace is complete, in one turn.
    pub fn done_turn<R: Wait>(&self, rt: &R, seat: &mut CamSeat) -> bool
        requires { IsReady script_of self.now.turnstile seat.old }
        ensures seat { IsReady script_of self.now.turnstile seat.new × SameSeat (view seat.old) (view seat.new) }
        ensures turn { IsTurn (fixed_of script_of self.now.turnstile) (view seat.old) (view seat.new) }
        ensures done { IsTrue result ↔ IsComplete (fixed_of script_of self.now.turnstile)
            (trace_of (history_in (view seat.new))) }
        ensures alone { IsAlone (view seat.old) → (view seat.new).seen ≡ (view seat.old).seen }
        ensures jobs { IsPermutation (view seat.new).jobs (view seat.old).jobs }
    {
        let held = self.turnstile.enter(rt, seat);
        let done = held.value.service.done();
        held.value.service.is_a_run();
        let unchanged = held.value.service.moves();
        self.turnstile.leave(seat, held, unchanged);
        done
    }
}
