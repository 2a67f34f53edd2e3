//! The picks that choose nothing.
ghost use Rattle.std.specs.Prelude.{◌≡◌, ◌<◌, ◌≤◌, ◌++◌, OnOk, decimal, length};
ghost use Rattle.wrong_words.specs.Picks.{heading, line_head, picks_from, picks_left, picks_part, unused_line};
ghost use Rattle.wrong_words.specs.Places.{pick_number};

use crate::{pick_line, put_number};
use cam_types::{NoMemory, Script};
use std::alloc::Global;

/// Writes a number between two texts.
pub fn put_between(
    text: &mut Vec<u8>,
    alloc: Global,
    front: &[u8],
    number: u64,
    back: &[u8],
) -> Result<(), NoMemory>
    ensures { OnOk result
        (text.new.items ≡ text.old.items ++ (front.now ++ (decimal number ++ back.now))) }
{
    text.extend_from_slice(front)?;
    put_number(text, alloc, number)?;
    text.extend_from_slice(back)
}

/// Writes the number of the line in which the pick at the place stands.
#[tactic(auto, unfolding(crate::specs::Picks::line_head))]
fn put_line_head(
    text: &mut Vec<u8>,
    alloc: Global,
    part: &[u8],
    place: usize,
) -> Result<(), NoMemory>
    requires { length part.now ≤ 134217728 }
    ensures { OnOk result (text.new.items ≡ text.old.items ++ line_head (pick_number part.now place)) }
{
    match pick_line(part, place) {
        Some(number) => put_between(text, alloc, b"    line ", u64::from(number), b"  "),
        None => text.extend_from_slice(b"    "),
    }
}

/// Writes how many picks of all there are from the first one on.
#[tactic(auto, unfolding(crate::specs::Picks::picks_left))]
fn put_picks_left(text: &mut Vec<u8>, alloc: Global, first: u64, all: u64) -> Result<(), NoMemory>
    requires { first < all }
    ensures { OnOk result (text.new.items ≡ text.old.items ++ picks_left first all) }
{
    put_number(text, alloc, all - first)?;
    text.extend_from_slice(b" of ")?;
    put_number(text, alloc, all)
}

/// Writes the first of those picks.
#[tactic(auto, unfolding(crate::specs::Picks::picks_from))]
fn put_picks_from(text: &mut Vec<u8>, alloc: Global, first: u64) -> Result<(), NoMemory>
    ensures { OnOk result (text.new.items ≡ text.old.items ++ picks_from first) }
{
    put_between(text, alloc, b", from pick ", first, b" on\n")
}

/// Writes the heading.
#[tactic(auto, unfolding(crate::specs::Picks::heading))]
fn put_heading(text: &mut Vec<u8>) -> Result<(), NoMemory>
    ensures { OnOk result (text.new.items ≡ text.old.items ++ heading) }
{
    text.extend_from_slice(b"Picks that play never uses, since its run is over before:\n")
}

/// Writes the line in which the first pick stands that isn't used, and what is told of the picks from it on.
#[tactic(auto, unfolding(crate::specs::Picks::unused_line))]
fn put_unused_line(
    text: &mut Vec<u8>,
    alloc: Global,
    script: &Script,
    part: &[u8],
    first: u64,
) -> Result<(), NoMemory>
    requires part { length part.now ≤ 134217728 }
    requires some { first < length script.now.picks }
    ensures { OnOk result (text.new.items ≡ text.old.items ++ unused_line script.now part.now first) }
{
    put_line_head(text, alloc, part, first as usize)?;
    put_picks_left(text, alloc, first, u64::from(script.picks.len()))?;
    put_picks_from(text, alloc, first)
}

/// Writes which picks the script's played run doesn't come to, where it has so many moves.
pub fn put_picks_part(
    text: &mut Vec<u8>,
    alloc: Global,
    script: &Script,
    part: &[u8],
    moves: u64,
) -> Result<(), NoMemory>
    requires { length part.now ≤ 134217728 }
    ensures { OnOk result (text.new.items ≡ text.old.items ++ picks_part script.now part.now moves) }
{
    if moves >= u64::from(script.picks.len()) {
        return Ok(());
    }
    put_heading(text)?;
    put_unused_line(text, alloc, script, part, moves)
}
