//! The script whose trace stands behind the lines.
ghost use Rattle.std.specs.Prelude.{◌≡◌, ◌≤◌, IfOk, length};
ghost use Rattle.auto_call.specs.Output.{once, script_of};

use call_parts::{for_first_stream, plain_script, small_stream};
use cam_types::{Command, CommandList, NoMemory, Script, Settings};
use std::alloc::Global;

/// `once` of the settings for stream 0.
fn once(settings: Settings) -> Command
    ensures { result ≡ once settings }
{
    Command::Once(for_first_stream(settings))
}

/// The script that configures the stream, captures each frame once and closes.
pub fn script_of(alloc: Global, shots: &[Settings]) -> Result<Script, NoMemory>
    requires { length shots.now ≤ 64 }
    ensures { IfOk result (λ script. script ≡ script_of shots.now) }
{
    let mut commands = CommandList::new(alloc);
    commands.push(Command::Configure(small_stream(alloc)?))?;
    for shot in shots {
        commands.push(once(*shot))?;
    }
    commands.push(Command::Close)?;
    Ok(plain_script(alloc, commands))
}
