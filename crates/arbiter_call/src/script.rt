//! What the client of a session does at its camera.
ghost use Rattle.std.specs.Prelude.{◌≡◌, ◌∷◌, ◌≤◌, [], IfOk, IfSome, IsTrue, OnOk, true};
ghost use Rattle.cam_types.specs.Script.{command_fits, is_closing_command, is_valid};
ghost use Rattle.call_parts.specs.OwnScripts.{small_stream};
ghost use Rattle.arbiter_call.specs.Scripts.{preview, script_behind, session_commands, session_script, shots_fit};

use crate::LogLine;
use call_parts::{for_first_stream, plain_script, small_stream};
use cam_types::{Command, CommandList, ItemList, NoMemory, Script};
use metadata::{Template, template};
use std::alloc::Global;

/// `preview@0`, as a list.
fn previews(alloc: Global) -> Result<ItemList, NoMemory>
    ensures { IfOk result (λ list. list ≡ preview ∷ []) }
{
    let mut items = ItemList::new(alloc);
    items.push(for_first_stream(template(Template::Preview)))?;
    Ok(items)
}

/// Adds what a session begins with: it previews until it has seen so many frames.
fn put_preview(commands: &mut CommandList, alloc: Global, shots: u32) -> Result<(), NoMemory>
    requires { commands.old ≡ [] }
    ensures { OnOk result (commands.new
        ≡ Command.Configure small_stream ∷ Command.Repeat (preview ∷ []) ∷ Command.Await shots ∷ []) }
{
    commands.push(Command::Configure(small_stream(alloc)?))?;
    commands.push(Command::Repeat(previews(alloc)?))?;
    commands.push(Command::Await(shots))
}

/// The commands of a session: it previews until it has seen so many frames, and ends by a command.
fn session_commands(alloc: Global, shots: u32, last: Command) -> Result<CommandList, NoMemory>
    ensures { IfOk result (λ commands. commands ≡ session_commands shots last) }
{
    let mut commands = CommandList::new(alloc);
    put_preview(&mut commands, alloc, shots)?;
    commands.push(last)?;
    Ok(commands)
}

/// The script of a session.
#[tactic(auto, unfolding(crate::specs::Scripts::session_script))]
fn session_script(alloc: Global, shots: u32, last: Command) -> Result<Script, NoMemory>
    requires least { 1 ≤ shots }
    requires most { shots ≤ 100 }
    requires fits { command_fits last ≡ true }
    requires closes { is_closing_command last ≡ true }
    ensures script { IfOk result (λ script. script ≡ session_script shots last) }
    ensures valid { IfOk result (λ script. IsTrue (is_valid script)) }
{
    let commands = session_commands(alloc, shots, last)?;
    Ok(plain_script(alloc, commands))
}

/// The script of the session that a line ends, if it ends one. It is valid. This fails only for want of memory.
pub fn script_behind(alloc: Global, line: LogLine) -> Result<Option<Script>, NoMemory>
    requires { IsTrue (shots_fit line) }
    ensures script { IfOk result (λ script. script ≡ script_behind line) }
    ensures valid { IfOk result (λ behind. IfSome behind (λ script. IsTrue (is_valid script))) }
{
    match line {
        LogLine::Evict(session) => {
            Ok(Some(session_script(alloc, session.shots, Command::Disconnect)?))
        }
        LogLine::Leave(session) => Ok(Some(session_script(alloc, session.shots, Command::Close)?)),
        LogLine::Grant(_) | LogLine::Refused(_) => Ok(None),
    }
}
