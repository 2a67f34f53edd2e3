//! Bars: of a call from its begin to its answer, and of a buffer from its send to its end.
ghost use Rattle.std.specs.Prelude.{◌≡◌, ◌++◌, ◌<◌, ◌^◌, OnOk, string_bytes};
ghost use Rattle.timeline_svg.specs.Bars.{bar_of, bar_text, label_of, label_text};

use crate::place::{Layout, mark_y, x_of};
use cam_types::NoMemory;
use timeline_model::{Piece, Seat};

/// Writes a bar from one place to another, both included.
#[tactic(auto, unfolding(crate::specs::Bars::bar_text, crate::specs::Bars::end_text))]
fn put_bar(out: &mut String, from: u32, to: u32, y: u64) -> Result<(), NoMemory>
    ensures { OnOk result (string_bytes out.new ≡ string_bytes out.old ++ bar_text from to y) }
{
    let left = x_of(from);
    let right = x_of(to) + 8;
    write!(out, "<path class='w' d='M{left} {y}H{right}v8H{left}z'/>")
}

/// Writes a frame's number at the beginning of its bar.
#[tactic(auto, unfolding(crate::specs::Bars::label_text))]
fn put_label(out: &mut String, from: u32, y: u64, frame: u32) -> Result<(), NoMemory>
    requires { y < 2 ^ 22 }
    ensures { OnOk result (string_bytes out.new ≡ string_bytes out.old ++ label_text from y frame) }
{
    let x = x_of(from) + 1;
    let y = y + 8;
    write!(out, "<text x='{x}' y='{y}'>{frame}</text>")
}

/// Writes the number of the frame whose bar it is, where it is one in a row.
fn put_label_of(
    out: &mut String,
    from: u32,
    y: u64,
    seat: Option<Seat>,
    frame: Option<u32>,
) -> Result<(), NoMemory>
    requires { y < 2 ^ 22 }
    ensures { OnOk result (string_bytes out.new ≡ string_bytes out.old ++ label_of from y seat frame) }
{
    match (seat, frame) {
        (Some(_), Some(frame)) => put_label(out, from, y, frame),
        (Some(_), None) => Ok(()),
        (None, _) => Ok(()),
    }
}

/// Writes the bar that ends at a place with a piece, where one does.
pub fn put_bar_of(
    out: &mut String,
    layout: Layout,
    place: u32,
    piece: &Piece,
) -> Result<(), NoMemory>
    ensures { OnOk result (string_bytes out.new ≡ string_bytes out.old
        ++ bar_of layout place piece.now.since piece.now) }
{
    match piece.since {
        Some(from) => {
            let y = mark_y(layout, piece);
            put_bar(out, from, place, y)?;
            put_label_of(out, from, y, piece.seat, piece.frame)
        }
        None => Ok(()),
    }
}
