//! What is drawn of a line of the input: its title, its pieces, and a pillar where it isn't allowed or breaks a rule.
ghost use Rattle.std.specs.Prelude.{◌≡◌, ◌++◌, OnOk, codes, string_bytes};
ghost use Rattle.std.specs.List.{flat_map};
ghost use Rattle.timeline_svg.specs.Groups.{drawing_text, fault_of, group_text, inner_text, number_of, piece_text, pillar_of, pillar_text, title_text, unfinished_text};

use crate::bar::put_bar_of;
use crate::mark::{class_of, put_mark};
use crate::pen::{put, put_escaped};
use crate::place::{Layout, x_of};
use crate::word::put_word_of;
use cam_types::NoMemory;
use timeline_model::{Group, Piece};

/// Writes the bar that ends with a piece, its mark, and a word.
fn put_drawing(out: &mut String, layout: Layout, place: u32, piece: &Piece) -> Result<(), NoMemory>
    ensures { OnOk result (string_bytes out.new ≡ string_bytes out.old ++ drawing_text layout place piece.now) }
{
    put_bar_of(out, layout, place, piece)?;
    put_mark(out, layout, place, piece)?;
    put_word_of(out, layout.kind, place, piece.look)
}

/// Writes a piece.
fn put_piece(out: &mut String, layout: Layout, place: u32, piece: &Piece) -> Result<(), NoMemory>
    ensures { OnOk result (string_bytes out.new ≡ string_bytes out.old ++ piece_text layout place piece.now) }
{
    let class = class_of(piece.look);
    write!(out, "<g class='{class}'>")?;
    put_drawing(out, layout, place, piece)?;
    put(out, "</g>")
}

/// Writes the pieces of a line.
fn put_pieces(
    out: &mut String,
    layout: Layout,
    place: u32,
    pieces: &[Piece],
) -> Result<(), NoMemory>
    ensures { OnOk result (string_bytes out.new ≡ string_bytes out.old
        ++ flat_map (piece_text layout place) pieces.now) }
{
    for piece in pieces {
        put_piece(out, layout, place, piece)?;
    }
    Ok(())
}

/// Writes the title, which shows where the pointer rests on a mark: the line's number, and the line.
#[tactic(auto, unfolding(crate::specs::Groups::title_text))]
fn put_title(out: &mut String, line: u64, title: &[u8]) -> Result<(), NoMemory>
    ensures { OnOk result (string_bytes out.new ≡ string_bytes out.old ++ title_text line title.now) }
{
    write!(out, "<title>{line} ")?;
    put_escaped(out, title)?;
    put(out, "</title>")
}

/// Writes a pillar through all lanes.
#[tactic(auto, unfolding(crate::specs::Groups::pillar_text))]
fn put_pillar(out: &mut String, place: u32, bottom: u64) -> Result<(), NoMemory>
    ensures { OnOk result (string_bytes out.new ≡ string_bytes out.old ++ pillar_text place bottom) }
{
    let x = x_of(place);
    write!(out, "<path class='k' d='M{x} 16V{bottom}h8V16z'/>")
}

/// Writes a pillar, where the line is at fault.
fn put_pillar_of(out: &mut String, place: u32, bottom: u64, broken: bool) -> Result<(), NoMemory>
    ensures { OnOk result (string_bytes out.new ≡ string_bytes out.old ++ pillar_of place bottom broken) }
{
    if broken {
        put_pillar(out, place, bottom)
    } else {
        Ok(())
    }
}

/// Writes the title, the pieces and the pillar of a line.
fn put_inner(out: &mut String, layout: Layout, bottom: u64, group: &Group) -> Result<(), NoMemory>
    ensures { OnOk result (string_bytes out.new ≡ string_bytes out.old ++ inner_text layout bottom group.now) }
{
    put_title(out, group.line, group.title.as_slice())?;
    put_pieces(out, layout, group.place, group.pieces.as_slice())?;
    put_pillar_of(out, group.place, bottom, group.broken)
}

/// Writes all that is drawn of a line.
#[tactic(auto, unfolding(crate::specs::Groups::group_text))]
fn put_group(out: &mut String, layout: Layout, bottom: u64, group: &Group) -> Result<(), NoMemory>
    ensures { OnOk result (string_bytes out.new ≡ string_bytes out.old ++ group_text layout bottom group.now) }
{
    put(out, "<g>")?;
    put_inner(out, layout, bottom, group)?;
    put(out, "</g>\n")
}

/// Writes all that is drawn of each line.
pub fn put_groups(
    out: &mut String,
    layout: Layout,
    bottom: u64,
    groups: &[Group],
) -> Result<(), NoMemory>
    ensures { OnOk result (string_bytes out.new ≡ string_bytes out.old
        ++ flat_map (group_text layout bottom) groups.now) }
{
    for group in groups {
        put_group(out, layout, bottom, group)?;
    }
    Ok(())
}

/// Writes what is drawn of the line that isn't allowed, where there is one.
pub fn put_fault(
    out: &mut String,
    layout: Layout,
    bottom: u64,
    fault: &Option<Group>,
) -> Result<(), NoMemory>
    ensures { OnOk result (string_bytes out.new ≡ string_bytes out.old ++ fault_of layout bottom fault.now) }
{
    match fault {
        Some(group) => put_group(out, layout, bottom, group),
        None => Ok(()),
    }
}

/// Writes a number, where there is one.
fn put_number_of(out: &mut String, number: Option<u32>) -> Result<(), NoMemory>
    ensures { OnOk result (string_bytes out.new ≡ string_bytes out.old ++ number_of number) }
{
    match number {
        Some(number) => write!(out, "{number}"),
        None => Ok(()),
    }
}

/// Writes the title of a bar that isn't ended.
fn put_unfinished_title(out: &mut String, frame: Option<u32>) -> Result<(), NoMemory>
    ensures { OnOk result (string_bytes out.new ≡ string_bytes out.old
        ++ (codes "<g class='o'><title>frame " ++ (number_of frame ++ codes " isn't done</title>"))) }
{
    put(out, "<g class='o'><title>frame ")?;
    put_number_of(out, frame)?;
    put(out, " isn't done</title>")
}

/// Writes a bar that isn't ended.
#[tactic(auto, unfolding(crate::specs::Groups::unfinished_text))]
fn put_unfinished(
    out: &mut String,
    layout: Layout,
    last: u32,
    piece: &Piece,
) -> Result<(), NoMemory>
    ensures { OnOk result (string_bytes out.new ≡ string_bytes out.old ++ unfinished_text layout last piece.now) }
{
    put_unfinished_title(out, piece.frame)?;
    put_bar_of(out, layout, last, piece)?;
    put(out, "</g>\n")
}

/// Writes the bars that aren't ended.
pub fn put_all_unfinished(
    out: &mut String,
    layout: Layout,
    last: u32,
    pieces: &[Piece],
) -> Result<(), NoMemory>
    ensures { OnOk result (string_bytes out.new ≡ string_bytes out.old
        ++ flat_map (unfinished_text layout last) pieces.now) }
{
    for piece in pieces {
        put_unfinished(out, layout, last, piece)?;
    }
    Ok(())
}
