//! The mark of a piece: its class, which gives the colour, and its shape.
ghost use Rattle.std.specs.Prelude.{◌≡◌, ◌++◌, ◌∷◌, [], OnOk, string_bytes};
ghost use Rattle.timeline_svg.specs.Marks.{class_of, mark_text, shape_of};

use crate::place::{Layout, mark_y, x_of};
use cam_types::NoMemory;
use timeline_model::{Look, Piece};

/// The class of a look: one letter, of which the style sheet has the colour.
pub fn class_of(look: Look) -> &'static str
    ensures { result.now ≡ class_of look ∷ [] }
{
    match look {
        Look::Begin | Look::CallBegin { .. } => "b",
        Look::Call { .. } | Look::CallOk { .. } => "c",
        Look::Send | Look::RequestBegin | Look::RequestOk => "s",
        Look::Dropped | Look::RequestError | Look::Refused => "d",
        Look::Shutter { .. } => "h",
        Look::Partial { .. } => "p",
        Look::Filled => "f",
        Look::Failed | Look::CallError { .. } | Look::Unclear => "e",
        Look::ErrorRequest | Look::ErrorResult | Look::ErrorBuffer | Look::ErrorDevice => "x",
        Look::Release => "l",
        Look::Signal => "g",
        Look::Early => "r",
        Look::Late => "t",
        Look::Unfinished => "o",
    }
}

/// The shape of a mark: a triangle where something leaves or is exposed, an hourglass for what is dropped or refused, a
/// cross for an error, else a square.
fn shape_of(look: Look) -> &'static str
    ensures { result.now ≡ shape_of look }
{
    match look {
        Look::Send | Look::RequestBegin | Look::Signal => "h8l-4 8z",
        Look::Shutter { .. } | Look::Release => "m0 8l4-8l4 8z",
        Look::Dropped | Look::RequestError => "h8l-8 8h8z",
        Look::ErrorRequest | Look::ErrorResult | Look::ErrorBuffer | Look::ErrorDevice => {
            "l8 8m0-8l-8 8"
        }
        _ => "h8v8h-8z",
    }
}

/// Writes the mark of a piece at its place.
#[tactic(auto, unfolding(crate::specs::Marks::mark_text))]
pub fn put_mark(out: &mut String, layout: Layout, place: u32, piece: &Piece) -> Result<(), NoMemory>
    ensures { OnOk result (string_bytes out.new ≡ string_bytes out.old ++ mark_text layout place piece.now) }
{
    let x = x_of(place);
    let y = mark_y(layout, piece);
    let shape = shape_of(piece.look);
    write!(out, "<path d='M{x} {y}{shape}'/>")
}
