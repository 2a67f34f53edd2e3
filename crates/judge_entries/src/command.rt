//! What a command of the script says: its word, and the items that it submits.
ghost use Rattle.std.specs.Prelude.{◌≡◌, ◌<◌, ◌^◌, length, reverse, option_copied, slice_get};
ghost use Rattle.trace_model.specs.Calls.{word_of, command_at, next_command, is_waiting_command, items_of, is_repeat};
ghost use Rattle.trace_model.specs.Queue.{queued_items};

use crate::number::call_count;
use cam_types::{Command, Item, Script, Word};
use std::slice;
use trace_model::Entry;

/// A command's word.
pub fn word_of(command: &Command) -> Word
    ensures { result ≡ word_of command.now }
{
    match command {
        Command::Configure(_) => Word::Configure,
        Command::Once(_) => Word::Once,
        Command::Burst(_) => Word::Burst,
        Command::Repeat(_) => Word::Repeat,
        Command::Stop => Word::Stop,
        Command::Wait => Word::Wait,
        Command::Await(_) => Word::Await,
        Command::Flush => Word::Flush,
        Command::Close => Word::Close,
        Command::Disconnect => Word::Disconnect,
    }
}

/// The script's command at the place.
pub fn command_at(script: &Script, place: u32) -> Option<&Command>
    ensures { option_copied result ≡ command_at script.now place }
{
    script.commands.get(place)
}

/// The command that is called next.
pub fn next_command<'s>(script: &'s Script, entries: &[Entry]) -> Option<&'s Command>
    ensures { option_copied result ≡ next_command script.now (reverse entries.now) }
{
    let commands = script.commands.as_slice();
    commands.get(call_count(entries))
}

/// Whether the command begins before it is answered.
pub fn is_waiting_command(command: &Command) -> bool
    ensures { result ≡ is_waiting_command command.now }
{
    matches!(
        command,
        Command::Configure(_)
            | Command::Wait
            | Command::Await(_)
            | Command::Flush
            | Command::Close
            | Command::Disconnect
    )
}

/// Whether the command repeats a list.
pub fn is_repeat(command: Option<&Command>) -> bool
    ensures { result ≡ is_repeat (option_copied command.entry) }
{
    matches!(command, Some(Command::Repeat(_)))
}

/// The item that the command submits at the place.
pub fn item_of(command: Option<&Command>, place: u32) -> Option<Item>
    ensures { result ≡ slice_get (items_of (option_copied command.entry)) place }
{
    match command {
        Some(Command::Once(item)) => { if place == 0 { Some(*item) } else { None } }
        Some(Command::Burst(items)) => items.get(place).copied(),
        Some(Command::Repeat(items)) => items.get(place).copied(),
        _ => None,
    }
}

/// What an accepted command puts into the queue.
pub fn queued_items(command: Option<&Command>) -> &[Item]
    ensures items { result.now ≡ queued_items (option_copied command.entry) }
    ensures few { length result.now < 2 ^ 32 }
{
    match command {
        Some(Command::Once(item)) => slice::from_ref(item),
        Some(Command::Burst(items)) => {
            let _count = items.len();
            items.as_slice()
        }
        _ => &[],
    }
}
