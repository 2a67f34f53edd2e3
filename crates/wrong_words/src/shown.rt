//! Lines of a script, and lines that were refused.
ghost use Rattle.std.specs.Prelude.{◌≡◌, ◌++◌, OnOk, map, take};
ghost use Rattle.wrong_words.specs.Shown.{cut_mark, numbered_line, shown, shown_byte};

use crate::lines::put_number;
use cam_types::NoMemory;
use std::alloc::Global;

/// How many bytes of a line are shown.
const MOST_BYTES: usize = 100;

/// The byte that is shown for one.
fn shown_byte(byte: u8) -> u8
    ensures { result ≡ shown_byte byte }
{
    if byte >= b' ' && byte <= b'~' {
        byte
    } else {
        b'?'
    }
}

/// Writes bytes as they are shown.
fn put_bytes(text: &mut Vec<u8>, bytes: &[u8]) -> Result<(), NoMemory>
    ensures { OnOk result (text.new.items ≡ text.old.items ++ map shown_byte bytes.now) }
{
    let mut rest = bytes;
    while let [byte, after @ ..] = rest {
        text.push(shown_byte(*byte))?;
        rest = after;
    }
    Ok(())
}

/// So many bytes of a line, or all of them.
fn front_of(line: &[u8], most: usize) -> &[u8]
    ensures { result.now ≡ take most line.now }
{
    if most < line.len() {
        &line[..most]
    } else {
        line
    }
}

/// Writes the mark of a line that is cut.
fn put_cut_mark(text: &mut Vec<u8>, line: &[u8]) -> Result<(), NoMemory>
    ensures { OnOk result (text.new.items ≡ text.old.items ++ cut_mark line.now) }
{
    if line.len() > MOST_BYTES {
        text.extend_from_slice(b" ..")
    } else {
        Ok(())
    }
}

/// Writes a line as it is shown.
#[tactic(auto, unfolding(crate::specs::Shown::shown))]
pub fn put_shown(text: &mut Vec<u8>, line: &[u8]) -> Result<(), NoMemory>
    ensures { OnOk result (text.new.items ≡ text.old.items ++ shown line.now) }
{
    put_bytes(text, front_of(line, MOST_BYTES))?;
    put_cut_mark(text, line)
}

/// Writes a line of the input with its number.
#[tactic(auto, unfolding(crate::specs::Shown::numbered_line))]
pub fn put_numbered_line(
    text: &mut Vec<u8>,
    alloc: Global,
    number: u32,
    line: &[u8],
) -> Result<(), NoMemory>
    ensures { OnOk result (text.new.items ≡ text.old.items ++ numbered_line number line.now) }
{
    text.extend_from_slice(b"    line ")?;
    put_number(text, alloc, u64::from(number))?;
    text.extend_from_slice(b"  ")?;
    put_shown(text, line)?;
    text.extend_from_slice(b"\n")
}
