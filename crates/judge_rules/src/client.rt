//! When a command begins.
ghost use Rattle.std.specs.Prelude.{◌≡◌, reverse, option_copied};
ghost use Rattle.trace_model.specs.Client.{begin_of, begin_due};

use cam_types::{Command, Script};
use judge_entries::command::{is_waiting_command, next_command, word_of};
use judge_filters::call::begun;
use trace_model::Entry;

/// The begin of the command, where it waits and hasn't begun.
fn begin_of(entries: &[Entry], command: Option<&Command>) -> Option<Entry>
    ensures { result ≡ begin_of (reverse entries.now) (option_copied command.entry) }
{
    match command {
        Some(command) => {
            if is_waiting_command(command) && begun(entries).is_none() {
                Some(Entry::Begin {
                    word: word_of(command),
                })
            } else {
                None
            }
        }
        None => None,
    }
}

/// The begin that is due.
pub fn begin_due(script: &Script, entries: &[Entry]) -> Option<Entry>
    ensures { result ≡ begin_due script.now (reverse entries.now) }
{
    begin_of(entries, next_command(script, entries))
}
