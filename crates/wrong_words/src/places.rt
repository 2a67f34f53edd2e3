//! The lines of a script's text, by the place of what they say.
ghost use Rattle.std.specs.Prelude.{◌≡◌, ◌≤◌, drop, length};
ghost use Rattle.std.specs.Option.{option_map};
ghost use Rattle.text_parts.specs.Words.{loose_words};
ghost use Rattle.wrong_words.specs.Places.{pick_number, picks_in, place_of};
ghost use Rattle.wrong_words.specs.declared.kind.LineKind.TheVariants.{Command, Fault};

use crate::kind::{LineKind, is_of_kind};
use text_parts::{next_loose_word, split_line};

/// The line of the kind that has this place among them, from 0 on, with its number.
fn place_of(text: &[u8], kind: LineKind, place: usize) -> Option<(u32, &[u8])>
    requires { length text.now ≤ 134217728 }
    ensures { option_map (λ found. (found.0, found.1.now)) result ≡ place_of kind text.now place }
{
    let mut left = place;
    let mut number = 1;
    let mut rest = text;
    while let Some((line, behind)) = split_line(rest) {
        let is_one = is_of_kind(kind, line);
        if is_one && left == 0 {
            return Some((number, line));
        }
        if is_one {
            left -= 1;
        }
        number += 1;
        rest = behind;
    }
    None
}

/// The line of the command that has this place in the script, from 0 on, with its number, counted from 1.
pub fn command_line(text: &[u8], place: usize) -> Option<(u32, &[u8])>
    requires { length text.now ≤ 134217728 }
    ensures { option_map (λ found. (found.0, found.1.now)) result ≡ place_of Command text.now place }
{
    place_of(text, LineKind::Command, place)
}

/// The line of the fault that has this place in the script, from 0 on, with its number, counted from 1.
pub fn fault_line(text: &[u8], place: usize) -> Option<(u32, &[u8])>
    requires { length text.now ≤ 134217728 }
    ensures { option_map (λ found. (found.0, found.1.now)) result ≡ place_of Fault text.now place }
{
    place_of(text, LineKind::Fault, place)
}

/// How many words stand in a line behind the first one.
fn words_behind(line: &[u8]) -> usize
    ensures count { result ≡ length (drop 1 (loose_words line.now)) }
{
    let Some((_, words)) = next_loose_word(line) else {
        return 0;
    };
    let mut count = 0;
    let mut rest = words;
    while let Some((_, after)) = next_loose_word(rest) {
        count += 1;
        rest = after;
    }
    count
}

/// How many picks stand in a line.
fn pick_count(line: &[u8]) -> usize
    ensures { result ≡ length (picks_in line.now) }
{
    if is_of_kind(LineKind::Pick, line) {
        words_behind(line)
    } else {
        0
    }
}

/// The number of the line of the pick that has this place in the script, from 0 on.
#[tactic(auto, unfolding(crate::specs::Places::picks_of, crate::specs::Places::pick_number))]
pub fn pick_line(text: &[u8], place: usize) -> Option<u32>
    requires { length text.now ≤ 134217728 }
    ensures { result ≡ pick_number text.now place }
{
    let mut left = place;
    let mut number = 1;
    let mut rest = text;
    while let Some((line, behind)) = split_line(rest) {
        let count = pick_count(line);
        if left < count {
            return Some(number);
        }
        left -= count;
        number += 1;
        rest = behind;
    }
    None
}
