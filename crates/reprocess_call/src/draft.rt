//! The plan that stands after some lines.
ghost use Rattle.std.specs.Prelude.{◌≡◌, IsTrue, Some, None, IfSome, is_some, length, nat_le};
ghost use Rattle.std.specs.List.{list_all};
ghost use Rattle.reprocess_model.specs.Plan.{command_fits, is_output, is_plan, is_yuv};
ghost use Rattle.text_parts.specs.Words.{loose_words};
ghost use Rattle.reprocess_call.specs.Begun.{begun, outputs_fit};
ghost use Rattle.reprocess_call.specs.Grammar.{added_command, added_fault, added_output, added_picks, empty, is_started, may_prepare, one_more_output, picks_within, plan_at};
ghost use Rattle.text_parts.specs.Reader.{GivesBy};

use cam_types::{Four, FrameNo, PickList, StreamSpec};
use reprocess_model::{FrameList, PLAN_COMMANDS, PLAN_FAULTS, PLAN_PICKS, Plan, ReCommand, ReList};
use std::alloc::Global;
use std::mem;
use text_parts::{Cause, LineRefused, next_loose_word, with_picks};

/// A plan that may still grow, within the limits of a plan.
#[derive(Drop)]
pub struct Draft {
    pub input: Option<StreamSpec>,
    pub outputs: Four<StreamSpec>,
    pub faults: FrameList,
    pub picks: PickList,
    pub commands: ReList,
    ghost fit: { IsTrue (outputs_fit input outputs) },
    ghost few_faults: { IsTrue (nat_le (length faults) 64) },
    ghost few_picks: { IsTrue (picks_within picks) },
    ghost few_commands: { IsTrue (nat_le (length commands) 64) },
    ghost in_range: { IsTrue (list_all command_fits commands) },
}

/// The outputs with one more.
fn with_output(outputs: Four<StreamSpec>, spec: StreamSpec) -> Option<Four<StreamSpec>>
    ensures { result ≡ one_more_output outputs spec }
{
    let Four { a, b, c, d } = outputs;
    if a.is_none() {
        Some(Four {
            a: Some(spec),
            b,
            c,
            d,
        })
    } else if b.is_none() {
        Some(Four {
            a,
            b: Some(spec),
            c,
            d,
        })
    } else if c.is_none() {
        Some(Four {
            a,
            b,
            c: Some(spec),
            d,
        })
    } else {
        None
    }
}

impl Draft {
    /// Nothing but the version line.
    pub fn new(alloc: Global) -> Draft
        ensures { begun result.input result.outputs result.faults result.picks result.commands ≡ empty }
    {
        Draft {
            input: None,
            outputs: Four {
                a: None,
                b: None,
                c: None,
                d: None,
            },
            faults: FrameList::new(alloc),
            picks: PickList::new(alloc),
            commands: ReList::new(alloc),
        }
    }

    /// Whether an output stands.
    pub fn has_outputs(&self) -> bool
        ensures { result ≡ is_some self.now.outputs.a }
    {
        self.outputs.a.is_some()
    }

    /// Whether a fault, a pick or a command stands.
    pub fn is_started(&self) -> bool
        ensures { result ≡
            is_started (begun self.now.input self.now.outputs self.now.faults self.now.picks self.now.commands) }
    {
        !(self.faults.len() == 0 && (self.picks.len() == 0 && self.commands.len() == 0))
    }

    /// Whether faults and picks may stand.
    pub fn may_prepare(&self) -> bool
        ensures { result ≡
            may_prepare (begun self.now.input self.now.outputs self.now.faults self.now.picks self.now.commands) }
    {
        self.has_outputs() && self.commands.len() == 0
    }

    /// Sets its input.
    pub fn set_input(&mut self, spec: StreamSpec)
        requires first { self.old.input ≡ None }
        requires yuv { IsTrue (is_yuv spec) }
        ensures { begun self.new.input self.new.outputs self.new.faults self.new.picks self.new.commands ≡
            begun (Some spec) self.old.outputs self.old.faults self.old.picks self.old.commands }
    {
        self.input = Some(spec);
    }

    /// Adds an output.
    pub fn add_output(&mut self, input: StreamSpec, spec: StreamSpec) -> Result<(), LineRefused>
        requires input { self.old.input ≡ Some input }
        requires fits { IsTrue (is_output input spec) }
        ensures { GivesBy
            (λ _. begun self.new.input self.new.outputs self.new.faults self.new.picks self.new.commands) result
            (added_output (begun self.old.input self.old.outputs self.old.faults self.old.picks self.old.commands)
            spec) }
    {
        match with_output(self.outputs, spec) {
            Some(outputs) => {
                self.outputs = outputs;
                Ok(())
            }
            None => Err(LineRefused::Bad(Cause::Limit)),
        }
    }

    /// Adds a fault.
    pub fn add_fault(&mut self, frame: u32) -> Result<(), LineRefused>
        ensures { GivesBy
            (λ _. begun self.new.input self.new.outputs self.new.faults self.new.picks self.new.commands) result
            (added_fault (begun self.old.input self.old.outputs self.old.faults self.old.picks self.old.commands)
            frame) }
    {
        if self.faults.len() >= PLAN_FAULTS {
            return Err(LineRefused::Bad(Cause::Limit));
        }
        self.faults.push(FrameNo(frame))?;
        Ok(())
    }

    /// Adds the picks of a line.
    #[tactic(auto, unfolding(text_parts::specs::LineWords::picks_of))]
    pub fn add_picks(&mut self, alloc: Global, words: &[u8]) -> Result<(), LineRefused>
        ensures { GivesBy
            (λ _. begun self.new.input self.new.outputs self.new.faults self.new.picks self.new.commands) result
            (added_picks (begun self.old.input self.old.outputs self.old.faults self.old.picks self.old.commands)
            (loose_words words.now)) }
    {
        if next_loose_word(words).is_none() {
            return Err(LineRefused::Bad(Cause::Missing));
        }
        let picks = mem::replace(&mut self.picks, PickList::new(alloc));
        self.picks = with_picks(picks, words, PLAN_PICKS)?;
        Ok(())
    }

    /// Adds a command.
    pub fn add_command(&mut self, command: ReCommand) -> Result<(), LineRefused>
        requires { IsTrue (command_fits command) }
        ensures { GivesBy
            (λ _. begun self.new.input self.new.outputs self.new.faults self.new.picks self.new.commands) result
            (added_command (begun self.old.input self.old.outputs self.old.faults self.old.picks self.old.commands)
            command) }
    {
        if self.commands.len() >= PLAN_COMMANDS {
            return Err(LineRefused::Bad(Cause::Limit));
        }
        self.commands.push(command)?;
        Ok(())
    }

    /// The plan, where the input and an output stand.
    pub fn into_plan(self) -> Option<Plan>
        ensures plan { plan_at (begun self.input self.outputs self.faults self.picks self.commands) ≡ result }
        ensures valid { IfSome result (λ plan. IsTrue (is_plan plan)) }
    {
        let input = self.input?;
        if self.outputs.a.is_none() {
            return None;
        }
        let Draft {
            input: _,
            outputs,
            faults,
            picks,
            commands,
        } = self;
        Some(Plan {
            input,
            outputs,
            faults,
            picks,
            commands,
        })
    }
}
