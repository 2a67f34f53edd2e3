//! The whole picture.
ghost use Rattle.std.specs.Prelude.{◌≡◌, ◌<◌, ◌^◌, ◌++◌, IfOk, OnOk, string_bytes};
ghost use Rattle.std.specs.List.{flat_map};
ghost use Rattle.timeline_svg.specs.Pictures.{ground_text, head_text, lines_text, marks_text, note_line, notes_text, picture_text, scale_text, size_text, svg_text};

use crate::group::{put_all_unfinished, put_fault, put_groups};
use crate::lane::{put_lanes, put_names, put_ruler};
use crate::level::{put_bands, put_level};
use crate::pen::{put, put_escaped};
use crate::place::{Layout, bottom, height, width};
use crate::style::STYLE;
use cam_types::NoMemory;
use std::alloc::Global;
use timeline_model::{Chart, Series};

/// Writes the picture's size.
#[tactic(auto, unfolding(crate::specs::Pictures::size_text))]
fn put_size(out: &mut String, right: u64, high: u64) -> Result<(), NoMemory>
    ensures { OnOk result (string_bytes out.new ≡ string_bytes out.old ++ size_text right high) }
{
    write!(out, "{right}' height='{high}'>\n")
}

/// Writes the picture's head.
fn put_head(out: &mut String, right: u64, high: u64) -> Result<(), NoMemory>
    ensures { OnOk result (string_bytes out.new ≡ string_bytes out.old ++ head_text right high) }
{
    put(out, "<svg xmlns='http://www.w3.org/2000/svg' width='")?;
    put_size(out, right, high)?;
    put(out, STYLE)
}

/// Writes the bands and the level's line.
fn put_lines(out: &mut String, chart: &Chart, layout: Layout, bottom: u64) -> Result<(), NoMemory>
    ensures { OnOk result (string_bytes out.new ≡ string_bytes out.old ++ lines_text chart.now layout bottom) }
{
    put_bands(out, bottom, chart.groups.as_slice())?;
    put_level(out, layout.kind, chart.groups.as_slice())
}

/// Writes the lanes' names and the ruler.
fn put_scale(out: &mut String, chart: &Chart, layout: Layout) -> Result<(), NoMemory>
    ensures { OnOk result (string_bytes out.new ≡ string_bytes out.old ++ scale_text chart.now layout) }
{
    put_names(out, layout, chart.lanes.as_slice())?;
    put_ruler(out, chart.groups.as_slice())
}

/// Writes what is behind the marks.
#[tactic(auto, unfolding(crate::specs::Pictures::ground_text))]
fn put_ground(out: &mut String, chart: &Chart, layout: Layout, bottom: u64) -> Result<(), NoMemory>
    requires { bottom < 2 ^ 20 }
    ensures { OnOk result (string_bytes out.new ≡ string_bytes out.old ++ ground_text chart.now layout bottom) }
{
    let right = width(chart.count);
    let high = height(bottom, chart.notes.as_slice().len());
    put_head(out, right, high)?;
    put_lanes(out, layout, right, chart.lanes.as_slice())?;
    put_lines(out, chart, layout, bottom)?;
    put_scale(out, chart, layout)
}

/// Writes the marks.
#[tactic(auto, unfolding(crate::specs::Pictures::marks_text))]
fn put_marks(out: &mut String, chart: &Chart, layout: Layout, bottom: u64) -> Result<(), NoMemory>
    ensures { OnOk result (string_bytes out.new ≡ string_bytes out.old ++ marks_text chart.now layout bottom) }
{
    put_groups(out, layout, bottom, chart.groups.as_slice())?;
    put_all_unfinished(out, layout, chart.count, chart.unfinished.as_slice())?;
    put_fault(out, layout, bottom, &chart.fault)
}

/// Writes a note as a line.
fn put_note(out: &mut String, note: &[u8]) -> Result<(), NoMemory>
    ensures { OnOk result (string_bytes out.new ≡ string_bytes out.old ++ note_line note.now) }
{
    put(out, "<tspan x='4' dy='16'>")?;
    put_escaped(out, note)?;
    put(out, "</tspan>")
}

/// Writes the notes as lines.
fn put_note_lines(out: &mut String, notes: &[Series<u8>]) -> Result<(), NoMemory>
    ensures { OnOk result (string_bytes out.new ≡ string_bytes out.old ++ flat_map note_line notes.now) }
{
    for note in notes {
        put_note(out, note.as_slice())?;
    }
    Ok(())
}

/// Writes the notes under the picture, and the picture's end.
#[tactic(auto, unfolding(crate::specs::Pictures::notes_text))]
fn put_notes(out: &mut String, bottom: u64, notes: &[Series<u8>]) -> Result<(), NoMemory>
    requires { bottom < 2 ^ 20 }
    ensures { OnOk result (string_bytes out.new ≡ string_bytes out.old ++ notes_text bottom notes.now) }
{
    let y = bottom + 2;
    write!(out, "<text class='v' y='{y}'>")?;
    put_note_lines(out, notes)?;
    put(out, "</text>\n</svg>\n")
}

/// Writes the picture.
#[tactic(auto, unfolding(crate::specs::Pictures::picture_text))]
fn put_picture(out: &mut String, chart: &Chart, layout: Layout, bottom: u64) -> Result<(), NoMemory>
    requires { bottom < 2 ^ 20 }
    ensures { OnOk result (string_bytes out.new ≡ string_bytes out.old ++ picture_text chart.now layout bottom) }
{
    put_ground(out, chart, layout, bottom)?;
    put_marks(out, chart, layout, bottom)?;
    put_notes(out, bottom, chart.notes.as_slice())
}

/// The picture of a chart.
pub fn svg_text(alloc: Global, chart: &Chart) -> Result<Vec<u8>, NoMemory>
    ensures { IfOk result (λ text. text.items ≡ svg_text chart.now) }
{
    let layout = Layout {
        kind: chart.kind,
        rows: chart.rows,
    };
    let bottom = bottom(layout, chart.lanes.as_slice().len());
    let mut out = String::new(alloc);
    put_picture(&mut out, chart, layout, bottom)?;
    Ok(out.into_bytes())
}
