//! Words beside marks: which command was answered, and the time of a shutter.
ghost use Rattle.std.specs.Prelude.{◌≡◌, ◌++◌, OnOk, string_bytes};
ghost use Rattle.timeline_svg.specs.Words.{turned_text, word_of};

use crate::place::{lower, x_of};
use cam_types::NoMemory;
use text_parts::word_text;
use timeline_model::{Kind, Look};

/// Writes the beginning of a word that stands aslant above its mark.
fn put_turned(out: &mut String, place: u32, y: u64) -> Result<(), NoMemory>
    ensures { OnOk result (string_bytes out.new ≡ string_bytes out.old ++ turned_text place y) }
{
    let x = x_of(place) + 7;
    write!(out, "<text transform='translate({x} {y})rotate(-60)'>")
}

/// Writes the word of an answered command, or the time of a shutter in whole milliseconds.
pub fn put_word_of(out: &mut String, kind: Kind, place: u32, look: Look) -> Result<(), NoMemory>
    ensures { OnOk result (string_bytes out.new ≡ string_bytes out.old ++ word_of kind place look) }
{
    match look {
        Look::Call { word } => {
            let word = word_text(word);
            put_turned(out, place, 58)?;
            write!(out, "{word}</text>")
        }
        Look::Shutter { time } => {
            let time = time / 1_000_000;
            put_turned(out, place, 160 + lower(kind))?;
            write!(out, "{time}</text>")
        }
        _ => Ok(()),
    }
}
