//! The script that stands after some lines.

ghost use Rattle.std.specs.Prelude.{◌≡◌, ◌==◌, ◌∷◌, ◌++◌, [], true, false, IsTrue, IfOk, IfSome, MatchOption, length, not, sum_by};
ghost use Rattle.std.specs.List.{list_any};
ghost use Rattle.cam_types.specs.Script.{awaited_by, is_closing_command};
ghost use Rattle.text_parts.specs.Words.{loose_words};
ghost use Rattle.script_text.specs.Lines.{CommandLine, DeviceLine, EarlyLine, FaultLine, pick_line};
ghost use Rattle.script_text.specs.Within.{within};
ghost use Rattle.text_parts.specs.Reader.{GivesBy};
ghost use Rattle.script_text.specs.Grammar.{added, begun, closed, counts_within, empty, then_added, with_line};

use cam_types::{
    AWAITED_LIMIT, COMMAND_LIMIT, Command, CommandList, FAULT_LIMIT, Fault, FaultList, NoMemory,
    PICK_LIMIT, PickList, Profile, Script,
};
use std::alloc::Global;
use std::mem;
use text_parts::{Cause, LineRefused, next_loose_word, with_picks};

/// A script that may still grow. Its sums are kept with it, so that no line is looked at twice.
#[derive(Drop)]
pub struct Draft {
    script: Script,
    devices: u32,
    awaited: u64,
    is_closed: bool,
    ghost sums_up: { awaited ≡ sum_by awaited_by script.commands },
    ghost closes: { is_closed ≡ list_any is_closing_command script.commands },
    ghost counted: { IsTrue (counts_within (begun script devices)) },
}

impl Draft {
    /// Nothing but the version line.
    pub fn new(alloc: Global, version: u8) -> Draft
        ensures { begun result.script result.devices ≡ empty version }
    {
        Draft {
            script: Script {
                version,
                profile: Profile::PLAIN,
                early: false,
                faults: FaultList::new(alloc),
                picks: PickList::new(alloc),
                commands: CommandList::new(alloc),
            },
            devices: 0,
            awaited: 0,
            is_closed: false,
        }
    }

    /// The version of the script.
    pub fn version(&self) -> u8
        ensures { result ≡ self.now.script.version }
    {
        self.script.version
    }

    /// Whether a command line stands.
    fn has_commands(&self) -> bool
        ensures { result ≡ not (length self.now.script.commands == 0) }
    {
        self.script.commands.len() > 0
    }

    /// Adds a fault line.
    #[tactic(auto, unfolding(crate::specs::Grammar::added))]
    pub fn add_fault(&mut self, fault: Fault) -> Result<(), LineRefused>
        ensures { GivesBy (λ _. begun self.new.script self.new.devices) result
            (added (begun self.old.script self.old.devices) (FaultLine fault)) }
    {
        if self.script.faults.len() >= FAULT_LIMIT {
            return Err(LineRefused::Bad(Cause::Limit));
        }
        if self.has_commands() {
            return Err(LineRefused::Bad(Cause::FaultAfterCommand));
        }
        self.script.faults.push(fault)?;
        Ok(())
    }

    /// Adds a line `early`.
    #[tactic(auto, unfolding(crate::specs::Grammar::added))]
    pub fn add_early(&mut self) -> Result<(), LineRefused>
        ensures { GivesBy (λ _. begun self.new.script self.new.devices) result
            (added (begun self.old.script self.old.devices) EarlyLine) }
    {
        if self.has_commands() {
            return Err(LineRefused::Bad(Cause::FaultAfterCommand));
        }
        self.script.early = true;
        Ok(())
    }

    /// Adds a device line.
    #[tactic(auto, unfolding(crate::specs::Grammar::added))]
    pub fn add_device(&mut self, profile: Profile) -> Result<(), LineRefused>
        ensures { GivesBy (λ _. begun self.new.script self.new.devices) result
            (added (begun self.old.script self.old.devices) (DeviceLine profile)) }
    {
        if self.devices > 0 {
            return Err(LineRefused::Bad(Cause::Limit));
        }
        if self.has_commands() {
            return Err(LineRefused::Bad(Cause::FaultAfterCommand));
        }
        self.script.profile = profile;
        self.devices = 1;
        Ok(())
    }

    /// Adds a pick line, by the words behind `pick`.
    #[tactic(auto, unfolding(crate::specs::Grammar::added, text_parts::specs::LineWords::picks_of))]
    pub fn add_picks(&mut self, alloc: Global, words: &[u8]) -> Result<(), LineRefused>
        ensures { GivesBy (λ _. begun self.new.script self.new.devices) result
            (then_added (begun self.old.script self.old.devices) (pick_line (loose_words words.now))) }
    {
        if next_loose_word(words).is_none() {
            return Err(LineRefused::Bad(Cause::Missing));
        }
        let picks = mem::replace(&mut self.script.picks, PickList::new(alloc));
        self.script.picks = with_picks(picks, words, PICK_LIMIT)?;
        if self.has_commands() {
            return Err(LineRefused::Bad(Cause::FaultAfterCommand));
        }
        Ok(())
    }

    /// What is awaited with one more command, and whether it is closed then; none where a limit is passed.
    fn sums_with(&self, command: &Command) -> Option<(u64, bool)>
        requires { IsTrue (within command.now) }
        ensures counts { MatchOption result
            (counts_within (with_line (begun self.now.script self.now.devices) (CommandLine command.now)) ≡ false)
            (λ _. counts_within (with_line (begun self.now.script self.now.devices) (CommandLine command.now)) ≡ true) }
        ensures awaited { IfSome result
            (λ sums. sums.0 ≡ sum_by awaited_by (self.now.script.commands ++ command.now ∷ [])) }
        ensures closed { IfSome result
            (λ sums. sums.1 ≡ list_any is_closing_command (self.now.script.commands ++ command.now ∷ [])) }
    {
        let is_closed = self.is_closed || command.is_closing();
        let count = self.script.commands.len() + if is_closed { 1 } else { 2 };
        let awaited = self.awaited + u64::from(command.awaited());
        if count > COMMAND_LIMIT || awaited > AWAITED_LIMIT {
            None
        } else {
            Some((awaited, is_closed))
        }
    }

    /// Adds a command line.
    #[tactic(auto, unfolding(crate::specs::Grammar::added))]
    pub fn add_command(&mut self, command: Command) -> Result<(), LineRefused>
        requires { IsTrue (within command) }
        ensures { GivesBy (λ _. begun self.new.script self.new.devices) result
            (added (begun self.old.script self.old.devices) (CommandLine command)) }
    {
        let Some((awaited, is_closed)) = self.sums_with(&command) else {
            return Err(LineRefused::Bad(Cause::Limit));
        };
        self.script.commands.push(command)?;
        self.awaited = awaited;
        self.is_closed = is_closed;
        Ok(())
    }

    /// The script, with the added `close`.
    pub fn finish(self) -> Result<Script, NoMemory>
        ensures { IfOk result (λ script. script ≡ record self.script { commands = closed self.script.commands }) }
    {
        let mut script = self.script;
        if !self.is_closed {
            script.commands.push(Command::Close)?;
        }
        Ok(script)
    }
}
