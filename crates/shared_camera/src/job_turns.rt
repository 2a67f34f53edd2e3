//! Turns that hand out a job, or take one back.
ghost use Rattle.std.specs.Prelude.{Contains};
ghost use Rattle.turn_lock.specs.Lending.{IsReady, SameSeat};
ghost use Rattle.turn_lock.specs.Seats.{fixed_of, view};
ghost use Rattle.shared_camera.specs.Cameras.{script_of};
ghost use Rattle.shared_camera.specs.Turns.{AnswersShutterTurn, AnswersTakeTurn, GivesBack, IsTurn};

use crate::camera::CamSeat;
use crate::moves::{end_exposure, end_fill, expose, take_first};
use crate::shared::Shared;
use fill_jobs::{FillJob, FilledJob};
use picture_stages::ExposedJob;
use service_core::Shuttered;
use std::sync::Wait;

impl Shared {
    /// Begins the exposure that is due, in one turn, and hands the sensor's job out.
    pub fn shutter_turn<R: Wait>(&self, rt: &R, seat: &mut CamSeat) -> Shuttered
        requires { IsReady script_of self.now.turnstile seat.old }
        ensures seat { IsReady script_of self.now.turnstile seat.new × SameSeat (view seat.old) (view seat.new) }
        ensures turn { IsTurn (fixed_of script_of self.now.turnstile) (view seat.old) (view seat.new) }
        ensures answer { AnswersShutterTurn (fixed_of script_of self.now.turnstile) (view seat.old) result
            (view seat.new) }
    {
        let mut held = self.turnstile.enter(rt, seat);
        let answer = expose(&mut held.value.service);
        held.value.service.is_a_run();
        let moves = held.value.service.moves();
        self.turnstile.leave(seat, held, moves);
        answer
    }

    /// Takes the readout back from the sensor, in one turn. The job is one of the seat's.
    pub fn sensor_done_turn<R: Wait>(&self, rt: &R, seat: &mut CamSeat, job: ExposedJob)
        requires ready { IsReady script_of self.now.turnstile seat.old }
        requires out { Contains (view seat.old).jobs job }
        ensures seat { IsReady script_of self.now.turnstile seat.new × SameSeat (view seat.old) (view seat.new) }
        ensures turn { IsTurn (fixed_of script_of self.now.turnstile) (view seat.old) (view seat.new) }
        ensures given { GivesBack (fixed_of script_of self.now.turnstile) job (view seat.old) (view seat.new) }
    {
        let mut held = self.turnstile.enter(rt, seat);
        held.value.service.is_a_run();
        end_exposure(&mut held.value.service, job);
        held.value.service.is_a_run();
        let moves = held.value.service.moves();
        self.turnstile.leave(seat, held, moves);
    }

    /// Takes the first buffer that may be taken, in one turn, and hands the stage's job out.
    pub fn take_fill_turn<R: Wait>(&self, rt: &R, seat: &mut CamSeat) -> Option<FillJob>
        requires { IsReady script_of self.now.turnstile seat.old }
        ensures seat { IsReady script_of self.now.turnstile seat.new × SameSeat (view seat.old) (view seat.new) }
        ensures turn { IsTurn (fixed_of script_of self.now.turnstile) (view seat.old) (view seat.new) }
        ensures answer { AnswersTakeTurn (fixed_of script_of self.now.turnstile) (view seat.old) result
            (view seat.new) }
    {
        let mut held = self.turnstile.enter(rt, seat);
        let answer = take_first(&mut held.value.service);
        held.value.service.is_a_run();
        let moves = held.value.service.moves();
        self.turnstile.leave(seat, held, moves);
        answer
    }

    /// Takes the buffer and the readout back from a stage, in one turn. The job is one of the seat's.
    pub fn fill_done_turn<R: Wait>(&self, rt: &R, seat: &mut CamSeat, job: FilledJob)
        requires ready { IsReady script_of self.now.turnstile seat.old }
        requires out { Contains (view seat.old).jobs job }
        ensures seat { IsReady script_of self.now.turnstile seat.new × SameSeat (view seat.old) (view seat.new) }
        ensures turn { IsTurn (fixed_of script_of self.now.turnstile) (view seat.old) (view seat.new) }
        ensures given { GivesBack (fixed_of script_of self.now.turnstile) job (view seat.old) (view seat.new) }
    {
        let mut held = self.turnstile.enter(rt, seat);
        held.value.service.is_a_run();
        end_fill(&mut held.value.service, job);
        held.value.service.is_a_run();
        let moves = held.value.service.moves();
        self.turnstile.leave(seat, held, moves);
    }
}
