//! Lines of the script, beside those of the trace.
ghost use Rattle.std.specs.Prelude.{◌≡◌, ◌≤◌, ◌++◌, OnOk, length};
ghost use Rattle.std.specs.Option.{option_map};
ghost use Rattle.explain_call.specs.Explained.{command_part, next_command, next_command_text, next_heading, script_line};

use cam_types::{NoMemory, Script};
use judge_entries::number::call_count;
use std::alloc::Global;
use trace_model::Entry;
use wrong_words::{command_line, put_numbered_line};

/// Writes a line that was found in the script, with its number, where one was.
pub fn put_found(
    text: &mut Vec<u8>,
    alloc: Global,
    found: Option<(u32, &[u8])>,
) -> Result<(), NoMemory>
    ensures { OnOk result (text.new.items ≡ text.old.items
        ++ script_line (option_map (λ found. (found.0, found.1.now)) found.entry)) }
{
    match found {
        Some((number, line)) => put_numbered_line(text, alloc, number, line),
        None => Ok(()),
    }
}

/// Writes the heading of the next command.
#[tactic(auto, unfolding(crate::specs::Explained::next_heading))]
fn put_next_heading(text: &mut Vec<u8>) -> Result<(), NoMemory>
    ensures { OnOk result (text.new.items ≡ text.old.items ++ next_heading) }
{
    text.extend_from_slice(b"The next command:\n")
}

/// Writes the line of the next command, or that it has none.
fn put_next_line(
    text: &mut Vec<u8>,
    alloc: Global,
    found: Option<(u32, &[u8])>,
    is_left: bool,
) -> Result<(), NoMemory>
    ensures { OnOk result (text.new.items ≡ text.old.items
        ++ next_command_text (option_map (λ found. (found.0, found.1.now)) found.entry) is_left) }
{
    match found {
        Some((number, line)) => {
            put_next_heading(text)?;
            put_numbered_line(text, alloc, number, line)
        }
        None if is_left => {
            text.extend_from_slice(b"The next command is the close that is added.\n")
        }
        None => text.extend_from_slice(b"Every command was answered.\n"),
    }
}

/// Writes the command that is next behind so many calls.
#[tactic(auto, unfolding(crate::specs::Explained::next_command))]
fn put_next(
    text: &mut Vec<u8>,
    alloc: Global,
    script: &Script,
    part: &[u8],
    calls: usize,
) -> Result<(), NoMemory>
    requires { length part.now ≤ 134217728 }
    ensures { OnOk result (text.new.items ≡ text.old.items ++ next_command script.now part.now calls) }
{
    let is_left = calls < script.commands.len() as usize;
    put_next_line(text, alloc, command_line(part, calls), is_left)
}

/// Writes the command that is next behind the entries, where one begins or answers a command.
pub fn put_command_part(
    text: &mut Vec<u8>,
    alloc: Global,
    script: &Script,
    part: &[u8],
    before: &[Entry],
    faulty: &Entry,
) -> Result<(), NoMemory>
    requires { length part.now ≤ 134217728 }
    ensures { OnOk result
        (text.new.items ≡ text.old.items ++ command_part script.now part.now before.now faulty.now) }
{
    match faulty {
        Entry::Begin { .. } | Entry::Call { .. } => {
            put_next(text, alloc, script, part, call_count(before))
        }
        _ => Ok(()),
    }
}
