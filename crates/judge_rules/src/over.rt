//! What a command waits for.
ghost use Rattle.std.specs.Prelude.{◌≡◌, reverse};
ghost use Rattle.trace_model.specs.Client.{is_empty, is_idle, is_over};
ghost use Rattle.trace_model.specs.Queue.{queued};

use crate::pool::all_in_pool;
use crate::since::done_since_begin;
use cam_types::{Command, Script};
use judge_filters::open::is_quiet;
use judge_filters::queue::first_queued;
use trace_model::Entry;

/// Whether nothing is queued.
#[tactic(auto, using(crate::proofs::SinceLemmas::empty_first))]
pub fn is_queue_empty(script: &Script, entries: &[Entry]) -> bool
    ensures { result ≡ is_empty (queued script.now (reverse entries.now)) }
{
    first_queued(script, entries).is_none()
}

/// Whether nothing is in process and nothing is queued.
pub fn is_idle(script: &Script, entries: &[Entry]) -> bool
    ensures { result ≡ is_idle script.now (reverse entries.now) }
{
    is_quiet(entries) && is_queue_empty(script, entries)
}

/// Whether what the accepted command waits for is over.
pub fn is_over(script: &Script, entries: &[Entry], command: &Command) -> bool
    ensures { result ≡ is_over script.now (reverse entries.now) command.now }
{
    match command {
        Command::Flush | Command::Disconnect => is_idle(script, entries),
        Command::Configure(_) | Command::Wait | Command::Close => is_idle(script, entries)
            && all_in_pool(entries),
        Command::Await(frames) => *frames as usize <= done_since_begin(script, entries),
        Command::Once(_) | Command::Burst(_) | Command::Repeat(_) | Command::Stop => true,
    }
}
