//! The lines of a script.

ghost use Rattle.std.specs.Prelude.{◌≡◌, ◌++◌, true, OnOk, map, string_bytes};
ghost use Rattle.std.specs.List.{flat_map, list_all};
ghost use Rattle.text_parts.specs.CommandWords.{word_of, word_text};
ghost use Rattle.text_parts.specs.Lines.{line_text};
ghost use Rattle.script_text.specs.Spelling.{arguments_of, behind_spaces, command_line_words, device_lines, early_lines, fault_words, pick_lines, version_words};
ghost use Rattle.script_text.specs.Fits.{command_typed, fault_typed, numbers_typed};

use crate::spelled_value::{is_byte, is_word, write_item, write_items, write_numbers, write_specs};
use cam_types::{Command, Fault, NoMemory, Profile};
use text_parts::{word_of, word_text};

/// Writes the version line.
pub fn write_version(out: &mut String, version: u8) -> Result<(), NoMemory>
    ensures { OnOk result (string_bytes out.new ≡ string_bytes out.old ++ line_text (version_words version)) }
{
    writeln!(out, "camera {version}")
}

/// Writes the device line, which a script of the second version has.
pub fn write_device(out: &mut String, version: u8, profile: Profile) -> Result<(), NoMemory>
    ensures { OnOk result
        (string_bytes out.new ≡ string_bytes out.old ++ flat_map line_text (device_lines version profile)) }
{
    if version != 2 {
        return Ok(());
    }
    let Profile { depth, raw, yuv } = profile;
    writeln!(out, "device {depth} {raw} {yuv}")
}

/// Writes the line `early`, if it stands.
pub fn write_early(out: &mut String, early: bool) -> Result<(), NoMemory>
    ensures { OnOk result (string_bytes out.new ≡ string_bytes out.old ++ flat_map line_text (early_lines early)) }
{
    if early {
        out.push_str("early\n")
    } else {
        Ok(())
    }
}

/// Writes a fault line.
fn write_fault(out: &mut String, fault: &Fault) -> Result<(), NoMemory>
    ensures text { OnOk result (string_bytes out.new ≡ string_bytes out.old ++ line_text (fault_words fault.now)) }
    ensures typed { OnOk result (fault_typed fault.now ≡ true) }
{
    match *fault {
        Fault::Request(frame) => {
            let frame = frame.0;
            is_word(frame);
            writeln!(out, "fault request {frame}")
        }
        Fault::Result(frame) => {
            let frame = frame.0;
            is_word(frame);
            writeln!(out, "fault result {frame}")
        }
        Fault::Buffer(frame, stream) => {
            let frame = frame.0;
            is_word(frame);
            let stream = stream.0;
            is_byte(stream);
            writeln!(out, "fault buffer {frame} {stream}")
        }
        Fault::Device(frame) => {
            let frame = frame.0;
            is_word(frame);
            writeln!(out, "fault device {frame}")
        }
    }
}

/// Writes fault lines.
pub fn write_faults(out: &mut String, faults: &[Fault]) -> Result<(), NoMemory>
    ensures text { OnOk result
        (string_bytes out.new ≡ string_bytes out.old ++ flat_map line_text (map fault_words faults.now)) }
    ensures typed { OnOk result (list_all fault_typed faults.now ≡ true) }
{
    for fault in faults {
        write_fault(out, fault)?;
    }
    Ok(())
}

/// Writes the pick line, if there are picks.
pub fn write_picks(out: &mut String, picks: &[u32]) -> Result<(), NoMemory>
    ensures text { OnOk result
        (string_bytes out.new ≡ string_bytes out.old ++ flat_map line_text (pick_lines picks.now)) }
    ensures typed { OnOk result (numbers_typed picks.now ≡ true) }
{
    if picks.is_empty() {
        return Ok(());
    }
    out.push_str("pick")?;
    write_numbers(out, picks)?;
    out.push_str("\n")
}

/// Writes what stands behind a command's word.
fn write_arguments(out: &mut String, command: &Command) -> Result<(), NoMemory>
    ensures text { OnOk result
        (string_bytes out.new ≡ string_bytes out.old ++ behind_spaces (arguments_of command.now)) }
    ensures typed { OnOk result (command_typed command.now ≡ true) }
{
    match command {
        Command::Configure(specs) => write_specs(out, specs.as_slice()),
        Command::Once(item) => {
            out.push_str(" ")?;
            write_item(out, item)
        }
        Command::Burst(items) | Command::Repeat(items) => write_items(out, items.as_slice()),
        Command::Await(count) => {
            is_word(*count);
            write!(out, " {count}")
        }
        _ => Ok(()),
    }
}

/// Writes a command line.
fn write_command(out: &mut String, command: &Command) -> Result<(), NoMemory>
    ensures text { OnOk result
        (string_bytes out.new ≡ string_bytes out.old ++ line_text (command_line_words command.now)) }
    ensures typed { OnOk result (command_typed command.now ≡ true) }
{
    out.push_str(word_text(word_of(command)))?;
    write_arguments(out, command)?;
    out.push_str("\n")
}

/// Writes command lines.
pub fn write_commands(out: &mut String, commands: &[Command]) -> Result<(), NoMemory>
    ensures text { OnOk result
        (string_bytes out.new ≡ string_bytes out.old ++ flat_map line_text (map command_line_words commands.now)) }
    ensures typed { OnOk result (list_all command_typed commands.now ≡ true) }
{
    for command in commands {
        write_command(out, command)?;
    }
    Ok(())
}
