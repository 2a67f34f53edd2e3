//! The line of a text that has a number.
ghost use Rattle.std.specs.Prelude.{◌≡◌};
ghost use Rattle.std.specs.List.{slice_get};
ghost use Rattle.std.specs.Option.{option_map};
ghost use Rattle.wrong_words.specs.Refused.{script_line, trace_line};
ghost use Rattle.text_parts.specs.Cuts.{parts_at};
ghost use Rattle.text_parts.specs.Lines.{lines_of};

use text_parts::{split_at_byte, split_line};

/// The line at the place, from 0 on, of a text whose last line may lack its end.
fn line_at(text: &[u8], place: u32) -> Option<&[u8]>
    ensures { option_map (λ line. line.now) result ≡ slice_get (lines_of text.now) place }
{
    let mut left = place;
    let mut rest = text;
    while let Some((line, behind)) = split_line(rest) {
        if left == 0 {
            return Some(line);
        }
        left -= 1;
        rest = behind;
    }
    None
}

/// Line n of a script, counted from 1.
#[tactic(auto, unfolding(crate::specs::Refused::script_line))]
pub fn script_line(part: &[u8], number: u32) -> Option<&[u8]>
    ensures { option_map (λ line. line.now) result ≡ script_line part.now number }
{
    if number == 0 {
        None
    } else {
        line_at(part, number - 1)
    }
}

/// The part at the place, from 0 on, of a text that is cut at its line ends.
fn part_at(text: &[u8], place: u32) -> Option<&[u8]>
    ensures { option_map (λ line. line.now) result ≡ slice_get (parts_at 10 text.now) place }
{
    let mut left = place;
    let mut rest = text;
    while let Some((line, behind)) = split_at_byte(rest, b'\n') {
        if left == 0 {
            return Some(line);
        }
        left -= 1;
        rest = behind;
    }
    if left == 0 { Some(rest) } else { None }
}

/// Line n of a trace, whose first line has a number.
#[tactic(auto, unfolding(crate::specs::Refused::trace_line))]
pub fn trace_line(text: &[u8], first: u32, number: u32) -> Option<&[u8]>
    ensures { option_map (λ line. line.now) result ≡ trace_line text.now first number }
{
    if number < first {
        None
    } else {
        part_at(text, number - first)
    }
}
