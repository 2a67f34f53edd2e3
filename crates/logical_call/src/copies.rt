//! Copies of a script's parts: each of the two cameras has its own.
ghost use Rattle.std.specs.Prelude.{◌≡◌, IfOk};
ghost use Rattle.logical_call.specs.Orderless.{without_faults};

use cam_types::{Command, CommandList, FaultList, Listing, NoMemory, Script};
use std::alloc::Global;

/// A list of the same entries.
fn copied_list<T: Copy + Drop>(alloc: Global, list: &Listing<T>) -> Result<Listing<T>, NoMemory>
    ensures { IfOk result (λ copy. copy ≡ list.now) }
{
    let _count = list.len();
    let mut copy = Listing::new(alloc);
    for entry in list.as_slice() {
        copy.push(*entry)?;
    }
    Ok(copy)
}

fn copied_command(alloc: Global, command: &Command) -> Result<Command, NoMemory>
    ensures { IfOk result (λ copy. copy ≡ command.now) }
{
    match command {
        Command::Configure(specs) => Ok(Command::Configure(copied_list(alloc, specs)?)),
        Command::Once(item) => Ok(Command::Once(*item)),
        Command::Burst(items) => Ok(Command::Burst(copied_list(alloc, items)?)),
        Command::Repeat(items) => Ok(Command::Repeat(copied_list(alloc, items)?)),
        Command::Stop => Ok(Command::Stop),
        Command::Wait => Ok(Command::Wait),
        Command::Await(frames) => Ok(Command::Await(*frames)),
        Command::Flush => Ok(Command::Flush),
        Command::Close => Ok(Command::Close),
        Command::Disconnect => Ok(Command::Disconnect),
    }
}

fn copied_commands(alloc: Global, commands: &CommandList) -> Result<CommandList, NoMemory>
    ensures { IfOk result (λ copy. copy ≡ commands.now) }
{
    let _count = commands.len();
    let mut copy = CommandList::new(alloc);
    for command in commands.as_slice() {
        copy.push(copied_command(alloc, command)?)?;
    }
    Ok(copy)
}

/// The script again, without its faults.
pub(crate) fn copied_without_faults(alloc: Global, script: &Script) -> Result<Script, NoMemory>
    ensures { IfOk result (λ copy. copy ≡ without_faults script.now) }
{
    Ok(Script {
        version: script.version,
        profile: script.profile,
        early: script.early,
        faults: FaultList::new(alloc),
        picks: copied_list(alloc, &script.picks)?,
        commands: copied_commands(alloc, &script.commands)?,
    })
}

/// The script again.
pub(crate) fn copied(alloc: Global, script: &Script) -> Result<Script, NoMemory>
    ensures { IfOk result (λ copy. copy ≡ script.now) }
{
    let faults = copied_list(alloc, &script.faults)?;
    let bare = copied_without_faults(alloc, script)?;
    Ok(Script { faults, ..bare })
}
