//! Which scripts two cameras may run side by side.
ghost use Rattle.std.specs.Prelude.{◌≡◌, nat_le, not, sum_by};
ghost use Rattle.std.specs.List.{list_all, list_any};
ghost use Rattle.cam_types.specs.Limits.{queue_limit};
ghost use Rattle.trace_laws.specs.Bounds.{queued_by};
ghost use Rattle.logical_call.specs.Orderless.{is_device_fault, is_logical, is_plain};

use cam_types::{Command, Fault, QUEUE_LIMIT, Script};

fn is_device_fault(fault: &Fault) -> bool
    ensures { result ≡ is_device_fault fault.now }
{
    matches!(fault, Fault::Device(_))
}

fn is_plain(command: &Command) -> bool
    ensures { result ≡ is_plain command.now }
{
    !matches!(
        command,
        Command::Repeat(_) | Command::Stop | Command::Await(_)
    )
}

fn queued_by(command: &Command) -> u32
    ensures { result ≡ queued_by command.now }
{
    match command {
        Command::Once(_) => 1,
        Command::Burst(items) => items.len(),
        _ => 0,
    }
}

fn has_device_fault(faults: &[Fault]) -> bool
    ensures { result ≡ list_any is_device_fault faults.now }
{
    faults.iter().any(|fault| is_device_fault(fault))
}

fn all_plain(commands: &[Command]) -> bool
    ensures { result ≡ list_all is_plain commands.now }
{
    commands.iter().all(|command| is_plain(command))
}

/// Whether all items of the commands may wait at once.
fn has_room(commands: &[Command]) -> bool
    ensures { result ≡ nat_le (sum_by queued_by commands.now) queue_limit }
{
    let mut items: u64 = 0;
    for command in commands {
        items += queued_by(command) as u64;
        if items > QUEUE_LIMIT as u64 {
            return false;
        }
    }
    true
}

/// Whether two cameras may run the script side by side: no order of steps changes a reply, and no buffer goes to the
/// client early.
pub fn is_logical(script: &Script) -> bool
    ensures { result ≡ is_logical script.now }
{
    let commands = script.commands.as_slice();
    script.version == 1
        && (!script.early
            && (!has_device_fault(script.faults.as_slice())
                && (all_plain(commands) && has_room(commands))))
}
