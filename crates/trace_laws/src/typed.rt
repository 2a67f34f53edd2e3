//! What the types say of every script.
ghost use Rattle.std.specs.Prelude.{◌≡◌, true, List, IsTrue};
ghost use Rattle.std.specs.List.{list_all};
ghost use Rattle.cam_types.specs.Script.{is_valid};
ghost use Rattle.trace_model.specs.Legal.{IsLegal};
ghost use Rattle.trace_model.specs.Printable.{is_byte, is_printable};
ghost use Rattle.trace_model.specs.declared.entry.Entry.{Entry as SomeEntry};
ghost use Rattle.trace_laws.specs.Typed.{are_bytes, command_typed, is_typed, item_typed};

use crate::laws::every_entry_prints;
use cam_types::{Command, Item, Script};

/// Each entry of each legal trace of the script has a line in the trace's text, where the script is valid.
pub fn legal_traces_print(script: &Script)
    ensures { (past : List SomeEntry) → IsTrue (is_valid script.now) → IsLegal script.now past →
        IsTrue (list_all is_printable past) }
{
    every_script_is_typed(script);
    every_entry_prints();
}

/// Every script that there is has numbers within their types. (It is walked, since a number shows its range where it is
/// read.)
pub fn every_script_is_typed(script: &Script)
    ensures { is_typed script.now ≡ true }
{
    let commands = script.commands.as_slice();
    for command in commands {
        command_is_typed(command);
    }
}

fn command_is_typed(command: &Command)
    ensures { command_typed command.now ≡ true }
{
    match command {
        Command::Once(item) => item_is_typed(item),
        Command::Burst(items) => items_are_typed(items.as_slice()),
        Command::Repeat(items) => items_are_typed(items.as_slice()),
        _ => (),
    }
}

fn items_are_typed(items: &[Item])
    ensures { list_all item_typed items.now ≡ true }
{
    for item in items {
        item_is_typed(item);
    }
}

fn item_is_typed(item: &Item)
    ensures { item_typed item.now ≡ true }
{
    number_is_byte(item.settings.pattern);
    numbers_are_bytes(&item.targets.list)
}

fn numbers_are_bytes(numbers: &[u8])
    ensures { are_bytes numbers.now ≡ true }
{
    for number in numbers {
        number_is_byte(*number);
    }
}

fn number_is_byte(number: u8)
    ensures { is_byte number ≡ true }
{}
