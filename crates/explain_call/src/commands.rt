//! The commands that have no call.
ghost use Rattle.std.specs.Prelude.{◌≡◌, ◌++◌, ◌∷◌, [], IfOk, OnOk, decimal, reverse};
ghost use Rattle.explain_call.specs.Missing.{command_line, name_of, name_text, place_text, uncalled};

use cam_types::{Command, NoMemory, Script};
use judge_entries::command::word_of;
use judge_entries::number::call_count;
use std::alloc::Global;
use text_parts::word_text;
use trace_model::Entry;
use wrong_words::put_number;

/// The word of a command.
#[tactic(auto, unfolding(crate::specs::Missing::name_of))]
fn name_of(command: &Command) -> &'static str
    ensures { result.now ≡ name_of command.now }
{
    word_text(word_of(command))
}

/// Writes a number and a space behind words.
fn put_spaced(text: &mut Vec<u8>, alloc: Global, words: &[u8], number: u64) -> Result<(), NoMemory>
    ensures { OnOk result (text.new.items ≡ text.old.items ++ (words.now ++ (decimal number ++ 32 ∷ []))) }
{
    text.extend_from_slice(words)?;
    put_number(text, alloc, number)?;
    text.extend_from_slice(b" ")
}

/// Writes the beginning of the line of a command at the place.
fn put_place(text: &mut Vec<u8>, alloc: Global, place: u64) -> Result<(), NoMemory>
    ensures { OnOk result (text.new.items ≡ text.old.items ++ place_text place) }
{
    put_spaced(text, alloc, b"    command ", place)
}

/// Writes the rest of that line.
fn put_name(text: &mut Vec<u8>, command: &Command) -> Result<(), NoMemory>
    ensures { OnOk result (text.new.items ≡ text.old.items ++ name_text command.now) }
{
    text.extend_from_slice(name_of(command).as_bytes())?;
    text.extend_from_slice(b"\n")
}

/// Writes the line of a command, whose place is the number.
fn put_command(
    text: &mut Vec<u8>,
    alloc: Global,
    place: u64,
    command: &Command,
) -> Result<(), NoMemory>
    ensures { OnOk result (text.new.items ≡ text.old.items ++ command_line place command.now) }
{
    put_place(text, alloc, place)?;
    put_name(text, command)
}

/// The lines of the commands that have no call.
pub fn uncalled(alloc: Global, script: &Script, entries: &[Entry]) -> Result<Vec<u8>, NoMemory>
    ensures { IfOk result (λ text. text.items ≡ uncalled script.now (reverse entries.now)) }
{
    let mut text = Vec::new(alloc);
    let called = call_count(entries);
    let mut place = 0;
    let mut rest = script.commands.as_slice();
    while let [command, after @ ..] = rest {
        if called <= place {
            put_command(&mut text, alloc, place as u64, command)?;
        }
        place += 1;
        rest = after;
    }
    Ok(text)
}
