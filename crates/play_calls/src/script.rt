//! The script of a seed and a count.
ghost use Rattle.std.specs.Prelude.{◌≡◌, ◌≤◌, [], IfOk, OnOk};
ghost use Rattle.play_calls.specs.Generated.{commands_of, faults_of, generated};

use crate::command::{command_of, two_streams};
use crate::word::{fault_of, has_fault};
use cam_types::{
    Command, CommandList, FAULT_LIMIT, FaultList, NoMemory, PickList, Profile, Script,
};
use rand_core::SeedableRng;
use rand_core::utils::NextWord;
use rand_xoshiro::SplitMix64;
use std::alloc::Global;

/// Adds a configuration, the commands of the words, and a `close`.
fn put_commands(
    commands: &mut CommandList,
    alloc: Global,
    seed: u64,
    count: u32,
) -> Result<(), NoMemory>
    requires few { count ≤ 200 }
    requires empty { commands.old ≡ [] }
    ensures { OnOk result (commands.new ≡ commands_of seed count) }
{
    commands.push(Command::Configure(two_streams(alloc)?))?;
    let mut generator = SplitMix64::seed_from_u64(seed);
    for _ in 0..count {
        let word = generator.next_word();
        commands.push(command_of(alloc, word)?)?;
    }
    commands.push(Command::Close)
}

/// A configuration, the commands of the words, and a `close`.
fn commands_of(alloc: Global, seed: u64, count: u32) -> Result<CommandList, NoMemory>
    requires { count ≤ 200 }
    ensures { IfOk result (λ list. list ≡ commands_of seed count) }
{
    let mut commands = CommandList::new(alloc);
    put_commands(&mut commands, alloc, seed, count)?;
    Ok(commands)
}

/// The faults of the first words that have one, as many as a script may have.
fn faults_of(alloc: Global, seed: u64, count: u32) -> Result<FaultList, NoMemory>
    requires { count ≤ 200 }
    ensures { IfOk result (λ list. list ≡ faults_of seed count) }
{
    let mut faults = FaultList::new(alloc);
    let mut generator = SplitMix64::seed_from_u64(seed);
    for done in 0..count {
        let word = generator.next_word();
        if has_fault(word) && faults.len() < FAULT_LIMIT {
            faults.push(fault_of(done + 1, word))?;
        }
    }
    Ok(faults)
}

/// The script of the seed with so many commands between its configuration and its `close`. It fails only for want of
/// memory.
#[tactic(auto, unfolding(crate::specs::Generated::generated))]
pub fn generate(alloc: Global, seed: u64, count: u32) -> Result<Script, NoMemory>
    requires { count ≤ 200 }
    ensures { IfOk result (λ script. script ≡ generated seed count) }
{
    let faults = faults_of(alloc, seed, count)?;
    let commands = commands_of(alloc, seed, count)?;
    Ok(Script {
        version: 1,
        profile: Profile::PLAIN,
        early: false,
        faults,
        picks: PickList::new(alloc),
        commands,
    })
}
