//! The bounds of a valid script.
ghost use Rattle.std.specs.Prelude.{◌≡◌, ◌<◌, ◌^◌, IsTrue, sum_by};
ghost use Rattle.cam_types.specs.Script.{awaited_by, is_valid};
ghost use Rattle.trace_laws.specs.Bounds.{early_bound, fence_bound, frame_bound, queued_by};
ghost use Rattle.run_model.specs.Bounds.{move_bound};

use cam_types::{Command, REPEATING_AHEAD, STREAM_LIMIT, Script};

/// The most buffers of a frame: one for each stream.
const FRAME_BUFFERS: u32 = STREAM_LIMIT;

/// How many items the command puts into the queue at most.
fn queued(command: &Command) -> u32
    ensures { result ≡ queued_by command.now }
{
    match command {
        Command::Once(_) => 1,
        Command::Burst(items) => items.len(),
        _ => 0,
    }
}

/// How many repeating frames the commands wait for.
fn awaited_frames(commands: &[Command]) -> u32
    requires { sum_by awaited_by commands.now < 2 ^ 32 }
    ensures { result ≡ sum_by awaited_by commands.now }
{
    commands.iter().map(|command| command.awaited()).sum()
}

/// How many items the commands put into the queue at most.
fn queued_items(commands: &[Command]) -> u32
    requires { sum_by queued_by commands.now < 2 ^ 32 }
    ensures { result ≡ sum_by queued_by commands.now }
{
    commands.iter().map(|command| queued(command)).sum()
}

/// No run of the script sends more frames.
#[tactic(auto, using(crate::proofs::Few::few))]
pub fn frame_bound(script: &Script) -> u32
    requires { IsTrue (is_valid script.now) }
    ensures { result ≡ frame_bound script.now }
{
    let commands = script.commands.as_slice();
    let repeating = REPEATING_AHEAD * (script.commands.len() + 2);
    repeating + (awaited_frames(commands) + queued_items(commands))
}

/// No run of the script releases more fences.
#[tactic(auto, using(crate::proofs::Few::few))]
pub fn fence_bound(script: &Script) -> u32
    requires { IsTrue (is_valid script.now) }
    ensures { result ≡ fence_bound script.now }
{
    FRAME_BUFFERS * frame_bound(script)
}

/// No run of the script gives away more device fences.
#[tactic(auto, using(crate::proofs::Few::few))]
pub fn early_bound(script: &Script) -> u32
    requires { IsTrue (is_valid script.now) }
    ensures { result ≡ early_bound script.now }
{
    FRAME_BUFFERS * frame_bound(script)
}

/// Every run of the script makes fewer moves.
#[tactic(auto, using(crate::proofs::Few::few))]
pub fn move_bound(script: &Script) -> usize
    requires { IsTrue (is_valid script.now) }
    ensures { result ≡ move_bound script.now }
{
    let calls = 2 * (script.commands.len() + 1) + 1;
    (32 * frame_bound(script) + calls) as usize
}
