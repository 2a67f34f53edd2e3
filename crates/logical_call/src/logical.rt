//! Both cameras together.
ghost use Rattle.std.specs.Prelude.{◌≡◌, ◌≤◌, ◌+◌, ◌*◌, ◌/◌, IfOk, IsTrue, MatchResult, length, true};
ghost use Rattle.std.specs.List.{list_all};
ghost use Rattle.cam_types.specs.Script.{is_valid};
ghost use Rattle.run_model.specs.Bounds.{move_bound};
ghost use Rattle.run_model.specs.History.{trace_of};
ghost use Rattle.run_model.specs.Run.{IsRun};
ghost use Rattle.trace_model.specs.Complete.{IsComplete};
ghost use Rattle.trace_model.specs.Printable.{is_printable};
ghost use Rattle.logical_call.specs.Orderless.{is_logical, without_faults};
ghost use Rattle.logical_call.specs.Both.{at_first};
ghost use Rattle.logical_call.specs.Turns.{AnswersStep, HasLine, IsRefused, IsStepOf};

use crate::camera::Camera;
use crate::copies::{copied, copied_without_faults};
use crate::pairing::pair_after;
use crate::turn::{Turn, turn_of};
use crate::{Paired, is_logical};
use cam_types::{NoMemory, Script};
use std::alloc::Global;
use std::marker::Model;
use trace_model::Entry;

/// Why two cameras aren't opened.
#[derive(Clone, Copy, Debug, PartialEq, Eq)]
pub enum LogicalRefused {
    /// Two cameras may not run the script side by side.
    NotLogical,
    /// There is no memory.
    NoMemory,
}

/// What became of a step.
#[derive(Clone, Copy)]
pub enum LogicalStep {
    /// The step was made, by camera 0 or by camera 1.
    Did {
        camera: u8,
        entry: Option<Entry>,
        /// The frame that has ended in the second of the two by it.
        paired: Option<Paired>,
    },
    /// Both runs are complete: nothing was done.
    Finished,
}

/// Two cameras that run one script side by side. All their memory is taken when they are opened. A contract sees the
/// script, and the moves of each. They can't be let go: `scrap` ends them.
pub struct Logical {
    first: Camera,
    second: Camera,
}

impl Model for Logical {
    ghost use Rattle.std.specs.Prelude.{◌≡◌, IsTrue};
    ghost use Rattle.logical_call.specs.Both.{Both};
    ghost use Rattle.logical_call.specs.Orderless.{is_logical, without_faults};

    ghost Value = { Both };

    ghost view = { λ l. record { script = l.first.script; first = l.first.history; second = l.second.history } };

    ghost invariant = { λ l. (l.second.script ≡ without_faults l.first.script) × IsTrue (is_logical l.first.script) };
}

impl Logical {
    /// Both cameras before their first step, with all the memory that their runs can need. They are refused exactly
    /// where the script isn't logical; then memory doesn't matter.
    pub fn open(alloc: Global, script: &Script) -> Result<Logical, LogicalRefused>
        requires { IsTrue (is_valid script.now) }
        ensures { MatchResult result (λ logical. IsTrue (is_logical script.now) × (logical ≡ at_first script.now))
            (λ refused. IsRefused script.now refused) }
    {
        if !is_logical(script) {
            return Err(LogicalRefused::NotLogical);
        }
        match open_both(alloc, script) {
            Ok(cameras) => Ok(cameras),
            Err(_) => Err(LogicalRefused::NoMemory),
        }
    }

    /// The script that both run: the first with its faults, the second without them.
    pub fn script(&self) -> &Script
        ensures { result.now ≡ self.now.script }
    {
        self.first.script()
    }

    /// Makes the candidate that the pick names: a pick that is even names the first camera and one that is odd the
    /// second, or the other where that one's run is complete; half of the pick, rounded down, is the number of its
    /// candidate, modulo how many there are. It takes no memory. Finished exactly where both runs are complete.
    pub fn step(&mut self, pick: u32) -> LogicalStep
        ensures answers { AnswersStep self.old pick result self.new }
        ensures line { HasLine result }
    {
        match turn_of(pick, self.first.done(), self.second.done()) {
            Turn::First => self.step_first(pick / 2),
            Turn::Second => self.step_second(pick / 2),
            Turn::Over => LogicalStep::Finished,
        }
    }

    /// Makes a step of the first camera.
    fn step_first(&mut self, number: u32) -> LogicalStep
        requires { ¬ IsComplete self.old.script (trace_of self.old.first) }
        ensures step { IsStepOf 0 self.old number result self.new }
        ensures line { HasLine result }
    {
        let seen = self.first.trace().len();
        let entry = self.first.step(u64::from(number));
        let first = self.first.trace();
        let before = &first[..seen];
        let second = self.second.trace();
        let paired = pair_after(entry, before, before, second, first, second);
        LogicalStep::Did {
            camera: 0,
            entry,
            paired,
        }
    }

    /// Makes a step of the second camera.
    fn step_second(&mut self, number: u32) -> LogicalStep
        requires { ¬ IsComplete (without_faults self.old.script) (trace_of self.old.second) }
        ensures step { IsStepOf 1 self.old number result self.new }
        ensures line { HasLine result }
    {
        let seen = self.second.trace().len();
        let entry = self.second.step(u64::from(number));
        let second = self.second.trace();
        let before = &second[..seen];
        let first = self.first.trace();
        let paired = pair_after(entry, before, first, before, first, second);
        LogicalStep::Did {
            camera: 1,
            entry,
            paired,
        }
    }

    /// Whatever steps were made, each camera's history is a run of its script, which is valid and logical, there are at
    /// most twice as many moves as the script's bound, and each entry has a line.
    pub fn is_a_run(&self)
        ensures first { IsRun self.now.script self.now.first }
        ensures second { IsRun (without_faults self.now.script) self.now.second }
        ensures lines { (list_all is_printable (trace_of self.now.first) ≡ true)
            × (list_all is_printable (trace_of self.now.second) ≡ true) }
        ensures few { length self.now.first + length self.now.second ≤ 2 * move_bound self.now.script }
        ensures valid { IsTrue (is_valid self.now.script) }
        ensures logical { IsTrue (is_logical self.now.script) }
    {
        self.first.is_a_run();
        self.second.is_a_run();
    }

    /// Ends both cameras.
    pub fn scrap(self) {
        let Logical { first, second } = self;
        first.scrap();
        second.scrap();
    }
}

/// Both cameras of a logical script, before their first step.
fn open_both(alloc: Global, script: &Script) -> Result<Logical, NoMemory>
    requires valid { IsTrue (is_valid script.now) }
    requires logical { IsTrue (is_logical script.now) }
    ensures { IfOk result (λ cameras. cameras ≡ at_first script.now) }
{
    let with_faults = copied(alloc, script)?;
    let without = copied_without_faults(alloc, script)?;
    let first = Camera::open(alloc, with_faults)?;
    match Camera::open(alloc, without) {
        Ok(second) => Ok(Logical { first, second }),
        Err(error) => {
            first.scrap();
            Err(error)
        }
    }
}
