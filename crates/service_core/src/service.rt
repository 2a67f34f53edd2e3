//! The service: its script, and the history of its moves.
ghost use Rattle.std.specs.Prelude.{◌≡◌, ◌↔◌, ◌≤◌, IfOk, IsTrue, length, reverse, true};
ghost use Rattle.std.specs.List.{list_all};
ghost use Rattle.std.specs.Option.{option_map};
ghost use Rattle.cam_types.specs.Script.{is_valid};
ghost use Rattle.run_model.specs.Bounds.{move_bound};
ghost use Rattle.run_model.specs.History.{trace_of};
ghost use Rattle.run_model.specs.Played.{pick_at};
ghost use Rattle.run_model.specs.Run.{IsRun};
ghost use Rattle.service_core.specs.Answers.{IsNoJobOut, opened, serving};
ghost use Rattle.service_parts.specs.Pictures.{client_picture};
ghost use Rattle.service_state.specs.Serving.{IsServing};
ghost use Rattle.trace_model.specs.Complete.{IsComplete};
ghost use Rattle.trace_model.specs.Legal.{IsLegal};
ghost use Rattle.trace_model.specs.Printable.{is_printable};

use cam_types::{BufferId, NoMemory, Script};
use run_model::{RoomLog, move_bound};
use service_state::ServiceState;
use std::alloc::Global;
use std::marker::Model;
use trace_laws::every_script_is_typed;
use trace_model::Entry;

/// The camera service. A contract sees the script and the history of moves, the newest first. It can't be let go:
/// `scrap` ends it.
pub struct Service {
    pub(crate) state: ServiceState,
    pub(crate) log: RoomLog,
}

impl Model for Service {
    ghost use Rattle.run_model.specs.State.{State};
    ghost use Rattle.service_core.specs.Inside.{IsKept, state_of};

    ghost Value = { State };

    ghost view = { λ s. state_of s.state s.log };

    ghost invariant = { λ s. IsKept s.state s.log };
}

impl Service {
    /// The service before its first move, with all the memory that a run of the script can need.
    pub fn open(alloc: Global, script: Script) -> Result<Service, NoMemory>
        requires { IsTrue (is_valid script) }
        ensures { IfOk result (λ service. service ≡ opened script) }
    {
        every_script_is_typed(&script);
        let log = RoomLog::with_room(alloc, move_bound(&script))?;
        let state = ServiceState::open(alloc, script)?;
        Ok(Service { state, log })
    }

    /// The script that is served.
    pub fn script(&self) -> &Script
        ensures { result.now ≡ self.now.script }
    {
        self.state.script()
    }

    /// The trace so far, the oldest entry first.
    pub fn trace(&self) -> &[Entry]
        ensures { result.now ≡ reverse (trace_of self.now.history) }
    {
        self.log.trace()
    }

    /// The parts of the service: they are those that the history leaves.
    pub fn parts(&self) -> &ServiceState
        ensures parts { result.now ≡ serving self.now }
        ensures serving { IsServing result.now }
    {
        &self.state
    }

    /// Whatever calls were made, the history is a run of the script, its trace is legal, each entry has a line, and the
    /// script is valid and gives so many moves room.
    pub fn is_a_run(&self)
        ensures run { IsRun self.now.script self.now.history }
        ensures legal { IsLegal self.now.script (trace_of self.now.history) }
        ensures lines { list_all is_printable (trace_of self.now.history) ≡ true }
        ensures few { length self.now.history ≤ move_bound self.now.script }
        ensures valid { IsTrue (is_valid self.now.script) }
    {
        let _ = &self.log;
    }

    /// What a buffer shows the client: the picture of the frame with which it came back, for its stream. None exactly
    /// where the client hasn't the buffer, or its picture isn't there yet.
    pub fn client_buffer(&self, buffer: BufferId) -> Option<&[u8]>
        ensures picture { option_map (λ bytes. bytes.now) result
            ≡ client_picture self.now.script (trace_of self.now.history) buffer.0 }
    {
        self.state.client_buffer(buffer)
    }

    /// How many moves were made.
    pub fn moves(&self) -> u64
        ensures { result ≡ length self.now.history }
    {
        self.log.len() as u64
    }

    /// Whether the trace is complete.
    pub fn done(&self) -> bool
        ensures { IsTrue result ↔ IsComplete self.now.script (trace_of self.now.history) }
    {
        self.state.is_over()
    }

    /// The script's pick for the next move, and 0 where it has none.
    pub fn pick(&self) -> u32
        ensures { result ≡ pick_at self.now.script (length self.now.history) }
    {
        match self.state.script().picks.as_slice().get(self.log.len()) {
            Some(pick) => *pick,
            None => 0,
        }
    }

    /// Ends the service, while no job is out.
    pub fn scrap(self)
        requires { IsNoJobOut self.history }
    {
        let Service { state, log: _ } = self;
        state.scrap();
    }
}
