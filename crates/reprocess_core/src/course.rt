//! A run: its plan, and the lines so far.
ghost use Rattle.std.specs.Prelude.{◌≡◌, ◌+◌, ◌*◌, ◌≤◌, [], ◌∷◌, IfOk, IsTrue, Some, length, reverse};
ghost use Rattle.std.specs.Option.{option_map};
ghost use Rattle.reprocess_model.specs.Due.{client_due as client_due_in, digest_of, drop_due as drop_due_in, due, error_due as error_due_in, failed_due as failed_due_in, fill_due as fill_due_in, input_due as input_due_in, take_due as take_due_in};
ghost use Rattle.reprocess_model.specs.Laws.{line_bound as bound_of};
ghost use Rattle.reprocess_model.specs.Past.{input_of as input_in};
ghost use Rattle.reprocess_model.specs.Plan.{is_plan};
ghost use Rattle.reprocess_model.specs.Run.{IsRun, is_complete as is_complete_in, is_ready as is_ready_in};
ghost use Rattle.reprocess_core.specs.State.{with_line};

use crate::due::{client_due, drop_due, error_due, failed_due, fill_buffer, input_due, take_due};
use crate::home::{all_inputs_home, all_outputs_home, least_queued};
use crate::reads::{call_count, input_of};
use cam_types::{BufferId, FrameNo, NoMemory, StreamIx};
use reprocess_model::{Plan, ReCommand, ReEntry, ReStepName};
use std::alloc::Global;
use std::marker::Model;

/// A plan and the lines of its run so far. All memory for the lines is taken at the start.
#[derive(Drop)]
pub struct Course {
    plan: Plan,
    lines: Vec<ReEntry>,
}

impl Model for Course {
    ghost use Rattle.std.specs.Prelude.{reverse, vec_capacity};
    ghost use Rattle.reprocess_core.specs.State.{IsCourse, State};

    ghost Value = { State };

    ghost view = { λ c. record { plan = c.plan; past = reverse c.lines.items } };

    ghost invariant = { λ c. IsCourse c.plan c.lines.items (vec_capacity c.lines) };
}

/// The most lines of a run: eight for each request and two for each flush.
fn line_bound(plan: &Plan) -> usize
    requires { IsTrue (is_plan plan.now) }
    ensures { result ≡ bound_of plan.now }
{
    let commands = plan.commands.as_slice();
    let mut requests: usize = 0;
    let mut flushes: usize = 0;
    for command in commands {
        match command {
            ReCommand::Request(_) => requests += 1,
            ReCommand::Flush => flushes += 1,
        }
    }
    8 * requests + 2 * flushes
}

impl Course {
    /// The run of a plan, with no lines, and the memory for all that it can have.
    pub fn open(alloc: Global, plan: Plan) -> Result<Course, NoMemory>
        requires { IsTrue (is_plan plan) }
        ensures { IfOk result (λ course. course ≡ record { plan = plan; past = [] }) }
    {
        let lines = Vec::with_capacity(alloc, line_bound(&plan))?;
        Ok(Course { plan, lines })
    }

    /// The plan.
    pub fn plan(&self) -> &Plan
        ensures value { result.now ≡ self.now.plan }
        ensures valid { IsTrue (is_plan self.now.plan) }
        ensures run { IsRun self.now.plan self.now.past }
    {
        let _lines = &self.lines;
        &self.plan
    }

    /// The lines so far, the oldest first.
    pub fn lines(&self) -> &[ReEntry]
        ensures value { result.now ≡ reverse self.now.past }
    {
        self.lines.as_slice()
    }

    /// Whether the run is complete.
    pub fn is_complete(&self) -> bool
        ensures { result ≡ is_complete_in self.now.plan self.now.past }
    {
        let lines = self.lines.as_slice();
        call_count(lines) == self.plan.commands.len() as usize
            && (least_queued(lines).is_none()
                && (all_inputs_home(lines) && all_outputs_home(lines)))
    }

    /// The line of the client's next command.
    pub fn client_due(&self) -> Option<ReEntry>
        ensures { result ≡ client_due_in self.now.plan self.now.past }
    {
        client_due(&self.plan, self.lines.as_slice())
    }

    /// The line of the next take.
    pub fn take_due(&self) -> Option<ReEntry>
        ensures { result ≡ take_due_in self.now.plan self.now.past }
    {
        take_due(&self.plan, self.lines.as_slice())
    }

    /// The line of the next drop.
    pub fn drop_due(&self) -> Option<ReEntry>
        ensures { result ≡ drop_due_in self.now.past }
    {
        drop_due(self.lines.as_slice())
    }

    /// The error of a request.
    pub fn error_due(&self, frame: FrameNo) -> Option<ReEntry>
        ensures { result ≡ error_due_in self.now.plan self.now.past frame.0 }
    {
        error_due(&self.plan, self.lines.as_slice(), frame)
    }

    /// The return of a buffer of a request that has its error.
    pub fn failed_due(&self, frame: FrameNo, stream: StreamIx) -> Option<ReEntry>
        ensures { result ≡ failed_due_in self.now.past frame.0 stream.0 }
    {
        failed_due(self.lines.as_slice(), frame, stream)
    }

    /// The buffer that comes back with a picture of a request for an output.
    pub fn fill_buffer(&self, frame: FrameNo, stream: StreamIx) -> Option<BufferId>
        ensures { fill_due_in self.now.plan self.now.past frame.0 stream.0 ≡
            option_map (λ buffer. ReEntry.Fill frame stream buffer (digest_of self.now.plan frame.0 stream.0)) result }
    {
        fill_buffer(&self.plan, self.lines.as_slice(), frame, stream)
    }

    /// The return of the input of a request.
    pub fn input_due(&self, frame: FrameNo) -> Option<ReEntry>
        ensures { result ≡ input_due_in self.now.plan self.now.past frame.0 }
    {
        input_due(&self.plan, self.lines.as_slice(), frame)
    }

    /// The input buffer that a request was taken with.
    pub fn input_of(&self, frame: FrameNo) -> Option<u32>
        ensures { result ≡ input_in frame.0 self.now.past }
    {
        input_of(self.lines.as_slice(), frame.0)
    }

    /// Whether a step is ready.
    pub fn is_ready(&self, step: ReStepName) -> bool
        ensures { result ≡ is_ready_in self.now.plan self.now.past step }
    {
        match step {
            ReStepName::TakeNext => self.take_due().is_some(),
            ReStepName::Client => self.client_due().is_some(),
            ReStepName::DropNext => self.drop_due().is_some(),
            ReStepName::Fail(frame) => self.error_due(frame).is_some(),
            ReStepName::ReturnFailed(frame, stream) => self.failed_due(frame, stream).is_some(),
            ReStepName::ReturnFilled(frame, stream) => self.fill_buffer(frame, stream).is_some(),
            ReStepName::ReturnInput(frame) => self.input_due(frame).is_some(),
        }
    }

    /// Adds the line that is due of a step. It takes no memory.
    pub fn add(&mut self, step: ReStepName, line: ReEntry)
        requires { due self.old.plan self.old.past step ≡ Some line }
        ensures { self.new ≡ with_line line self.old }
    {
        let _ = step;
        self.lines.push_reserved(line);
    }
}
