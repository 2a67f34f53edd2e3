//! One of the two cameras: a service, and the jobs that are out in its hands.
ghost use Rattle.std.specs.Prelude.{◌≡◌, ◌↔◌, ◌≤◌, [], IfOk, IfSome, IsTrue, length, reverse, true};
ghost use Rattle.std.specs.List.{list_all};
ghost use Rattle.cam_types.specs.Script.{is_valid};
ghost use Rattle.run_model.specs.Bounds.{move_bound};
ghost use Rattle.run_model.specs.History.{trace_of};
ghost use Rattle.run_model.specs.Run.{IsRun};
ghost use Rattle.service_core.specs.Answers.{opened};
ghost use Rattle.trace_model.specs.Complete.{IsComplete};
ghost use Rattle.trace_model.specs.Printable.{is_printable};
ghost use Rattle.logical_call.specs.Turns.{MakesChoice};

use cam_types::{NoMemory, Script};
use fill_jobs::Hands;
use service_core::Service;
use service_parts::no_job_is_out_at_first;
use settle::{Stepped, close, finish, step_at};
use std::alloc::Global;
use std::marker::Model;
use trace_model::Entry;

/// A camera that is run on this thread. A contract sees its script and the history of its moves. It can't be let go:
/// `scrap` ends it.
pub(crate) struct Camera {
    service: Service,
    hands: Hands,
}

impl Model for Camera {
    ghost use Rattle.run_model.specs.State.{State};
    ghost use Rattle.settle.specs.Stepping.{HoldsJobs};

    ghost Value = { State };

    ghost view = { λ c. c.service };

    ghost invariant = { λ c. HoldsJobs c.service c.hands };
}

impl Camera {
    /// The camera before its first step, with all the memory that a run of the script can need.
    pub(crate) fn open(alloc: Global, script: Script) -> Result<Camera, NoMemory>
        requires { IsTrue (is_valid script) }
        ensures { IfOk result (λ camera. camera ≡ opened script) }
    {
        let service = Service::open(alloc, script)?;
        no_job_is_out_at_first();
        Ok(Camera {
            service,
            hands: Hands::new(),
        })
    }

    /// The camera's script.
    pub(crate) fn script(&self) -> &Script
        ensures { result.now ≡ self.now.script }
    {
        self.service.script()
    }

    /// Whether its run is complete.
    pub(crate) fn done(&self) -> bool
        ensures { IsTrue result ↔ IsComplete self.now.script (trace_of self.now.history) }
    {
        self.service.done()
    }

    /// Its trace so far, the oldest entry first.
    pub(crate) fn trace(&self) -> &[Entry]
        ensures { result.now ≡ reverse (trace_of self.now.history) }
    {
        self.service.trace()
    }

    /// Makes the candidate of a number, modulo how many there are, and answers its entry.
    pub(crate) fn step(&mut self, number: u64) -> Option<Entry>
        requires { ¬ IsComplete self.old.script (trace_of self.old.history) }
        ensures made { MakesChoice self.old self.new number result }
        ensures line { IfSome result (λ entry. IsTrue (is_printable entry)) }
    {
        let seen = self.service.trace().len();
        match step_at(&mut self.service, &mut self.hands, number) {
            Stepped::Done(_) => {
                self.service.is_a_run();
                self.service.trace().get(seen).copied()
            }
            Stepped::Finished => unreachable!(),
        }
    }

    /// Whatever steps were made, its history is a run of its script, which is valid and gives so many moves room, and
    /// each entry has a line.
    pub(crate) fn is_a_run(&self)
        ensures run { IsRun self.now.script self.now.history }
        ensures lines { list_all is_printable (trace_of self.now.history) ≡ true }
        ensures few { length self.now.history ≤ move_bound self.now.script }
        ensures valid { IsTrue (is_valid self.now.script) }
    {
        self.service.is_a_run();
    }

    /// Ends the camera.
    pub(crate) fn scrap(self) {
        let Camera {
            mut service,
            mut hands,
        } = self;
        finish(&mut service, &mut hands);
        close(service, hands);
    }
}
