//! How far the repeating list may run ahead of the client.
ghost use Rattle.std.specs.Prelude.{◌≡◌, ◌<◌, ◌≤◌, ◌+◌, reverse, option_copied};
ghost use Rattle.trace_model.specs.Send.{awaited, awaited_in, holds_back, may_repeat, repeated_since_call};
ghost use Rattle.judge_rules.specs.Steps.{repeated_after};

use cam_types::{Command, REPEATING_AHEAD, Script, Word};
use judge_entries::command::next_command;
use judge_filters::call::{begun, is_repeating};
use trace_model::Entry;

/// Whether the command that has begun waits for the device to be quiet, so that no repeating item is sent.
fn holds_back(begun: Option<Word>) -> bool
    ensures { result ≡ holds_back begun }
{
    matches!(begun, Some(Word::Configure) | Some(Word::Close))
}

/// How many repeating frames were sent after the last call up to the entry: the entries before it are given, and the
/// count that they lead to.
fn repeated_after(count: usize, script: &Script, before: &[Entry], entry: &Entry) -> usize
    requires { count < usize.MAX }
    ensures value { result ≡ repeated_after count script.now (reverse before.now) entry.now }
    ensures small { result ≤ count + 1 }
{
    match entry {
        Entry::Call { .. } => 0,
        Entry::Send { request, .. } => {
            if is_repeating(script, before, *request) {
                1 + count
            } else {
                count
            }
        }
        _ => count,
    }
}

/// How many repeating frames were sent after the last call.
#[tactic(auto, using(crate::proofs::PastLemmas::repeated_more))]
pub fn repeated_since_call(script: &Script, entries: &[Entry]) -> usize
    ensures { result ≡ repeated_since_call script.now (reverse entries.now) }
{
    let mut count = 0;
    for (index, entry) in entries.iter().enumerate() {
        count = repeated_after(count, script, &entries[..index], entry);
    }
    count
}

/// How many frames the command waits for, where an await has begun.
fn awaited_in(begun: Option<Word>, command: Option<&Command>) -> u32
    ensures { result ≡ awaited_in begun (option_copied command.entry) }
{
    match (begun, command) {
        (Some(Word::Await), Some(Command::Await(frames))) => *frames,
        _ => 0,
    }
}

/// How many frames the await that has begun waits for.
pub fn awaited(script: &Script, entries: &[Entry]) -> u32
    ensures { result ≡ awaited script.now (reverse entries.now) }
{
    awaited_in(begun(entries), next_command(script, entries))
}

/// Whether a repeating item may be sent.
pub fn may_repeat(script: &Script, entries: &[Entry]) -> bool
    ensures { result ≡ may_repeat script.now (reverse entries.now) }
{
    let ahead = u64::from(REPEATING_AHEAD) + u64::from(awaited(script, entries));
    !holds_back(begun(entries)) && (repeated_since_call(script, entries) as u64) < ahead
}
