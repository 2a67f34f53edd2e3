//! The lanes behind the marks, with their names, and the ruler above them.
ghost use Rattle.std.specs.Prelude.{◌≡◌, ◌++◌, OnOk, string_bytes};
ghost use Rattle.std.specs.List.{flat_map};
ghost use Rattle.timeline_svg.specs.Lanes.{fences_stripe, kind_names, lanes_text, name_text, names_text, repeat_text, ruler_step, stream_name, stream_stripe, stripe_text, tick_text};

use crate::pen::put;
use crate::place::{Layout, lane_height, lane_top, lower, shift, x_of};
use cam_types::NoMemory;
use timeline_model::{Group, Kind, Lane};

/// The names of the lanes that each picture of a trace has.
pub const TRACE_NAMES: &str =
    "<g id='n' class='n'><text x='4' y='66'>calls</text><text x='4' y='110'>queue</text>\
<text x='4' y='130'>send, drop</text><text x='4' y='168'>shutter, ms</text><text x='4' y='192'>metadata</text>\
<text x='4' y='220'>release</text><text x='4' y='230'>signal</text>";

/// The names of the lanes that each picture of a hal log has.
pub const HAL_NAMES: &str =
    "<g id='n' class='n'><text x='4' y='32'>open</text><text x='4' y='43'>initialize</text>\
<text x='4' y='54'>template</text><text x='4' y='65'>configure</text><text x='4' y='76'>flush</text>\
<text x='4' y='87'>close</text><text x='4' y='129'>live</text><text x='4' y='150'>request</text>\
<text x='4' y='207'>shutter, ms</text><text x='4' y='231'>metadata</text>";

/// Writes a lane's ground.
#[tactic(auto, unfolding(crate::specs::Lanes::stripe_text))]
fn put_stripe(out: &mut String, right: u64, top: u64, height: u64) -> Result<(), NoMemory>
    ensures { OnOk result (string_bytes out.new ≡ string_bytes out.old ++ stripe_text right top height) }
{
    write!(out, "<path class='y' d='M0 {top}H{right}v{height}H0z'/>")
}

/// Writes the ground of the lane for fences, which a trace has.
fn put_fences_stripe(out: &mut String, kind: Kind, right: u64) -> Result<(), NoMemory>
    ensures { OnOk result (string_bytes out.new ≡ string_bytes out.old ++ fences_stripe kind right) }
{
    match kind {
        Kind::Trace => put_stripe(out, right, 208, 26),
        Kind::Hal => Ok(()),
    }
}

/// Writes the ground of a stream's lane.
fn put_stream_stripe(
    out: &mut String,
    layout: Layout,
    right: u64,
    lane: &Lane,
) -> Result<(), NoMemory>
    ensures { OnOk result (string_bytes out.new ≡ string_bytes out.old ++ stream_stripe layout right lane.now) }
{
    let top = lane_top(layout, lane.place) - 4;
    let height = lane_height(layout.rows) - 6;
    put_stripe(out, right, top, height)
}

/// Writes the grounds of the lanes of streams.
fn put_stream_stripes(
    out: &mut String,
    layout: Layout,
    right: u64,
    lanes: &[Lane],
) -> Result<(), NoMemory>
    ensures { OnOk result (string_bytes out.new ≡ string_bytes out.old
        ++ flat_map (stream_stripe layout right) lanes.now) }
{
    for lane in lanes {
        put_stream_stripe(out, layout, right, lane)?;
    }
    Ok(())
}

/// Writes the grounds of the lanes.
#[tactic(auto, unfolding(crate::specs::Lanes::lanes_text))]
pub fn put_lanes(
    out: &mut String,
    layout: Layout,
    right: u64,
    lanes: &[Lane],
) -> Result<(), NoMemory>
    ensures { OnOk result (string_bytes out.new ≡ string_bytes out.old ++ lanes_text layout right lanes.now) }
{
    let shift = shift(layout.kind);
    let high = 34 + lower(layout.kind) - shift;
    put_stripe(out, right, 18, 54 + shift)?;
    put_stripe(out, right, 140 + shift, high)?;
    put_fences_stripe(out, layout.kind, right)?;
    put_stream_stripes(out, layout, right, lanes)
}

/// Writes the name of a stream's lane.
#[tactic(auto, unfolding(crate::specs::Lanes::name_text))]
fn put_name(out: &mut String, y: u64, stream: u32) -> Result<(), NoMemory>
    ensures { OnOk result (string_bytes out.new ≡ string_bytes out.old ++ name_text y stream) }
{
    write!(out, "<text x='4' y='{y}'>stream {stream}</text>")
}

/// Writes the name of a stream's lane at its place.
fn put_stream_name(out: &mut String, layout: Layout, lane: &Lane) -> Result<(), NoMemory>
    ensures { OnOk result (string_bytes out.new ≡ string_bytes out.old ++ stream_name layout lane.now) }
{
    let y = lane_top(layout, lane.place) + 8;
    put_name(out, y, lane.stream)
}

/// Writes the names of the lanes of streams.
fn put_stream_names(out: &mut String, layout: Layout, lanes: &[Lane]) -> Result<(), NoMemory>
    ensures { OnOk result (string_bytes out.new ≡ string_bytes out.old ++ flat_map (stream_name layout) lanes.now) }
{
    for lane in lanes {
        put_stream_name(out, layout, lane)?;
    }
    Ok(())
}

/// The names that each picture of the kind has.
fn kind_names(kind: Kind) -> &'static str
    ensures { result.now ≡ kind_names kind }
{
    match kind {
        Kind::Trace => TRACE_NAMES,
        Kind::Hal => HAL_NAMES,
    }
}

/// Writes the names of the lanes.
#[tactic(auto, unfolding(crate::specs::Lanes::names_text))]
pub fn put_names(out: &mut String, layout: Layout, lanes: &[Lane]) -> Result<(), NoMemory>
    ensures { OnOk result (string_bytes out.new ≡ string_bytes out.old ++ names_text layout lanes.now) }
{
    put(out, kind_names(layout.kind))?;
    put_stream_names(out, layout, lanes)?;
    put(out, "</g>\n")
}

/// Writes a number of the ruler.
#[tactic(auto, unfolding(crate::specs::Lanes::tick_text))]
fn put_tick(out: &mut String, place: u32) -> Result<(), NoMemory>
    ensures { OnOk result (string_bytes out.new ≡ string_bytes out.old ++ tick_text place) }
{
    let x = x_of(place);
    write!(out, "<text class='m' x='{x}' y='12'>{place}</text>\n")
}

/// Writes the lanes' names once more.
#[tactic(auto, unfolding(crate::specs::Lanes::repeat_text))]
fn put_repeat(out: &mut String, place: u32) -> Result<(), NoMemory>
    ensures { OnOk result (string_bytes out.new ≡ string_bytes out.old ++ repeat_text place) }
{
    let x = x_of(place);
    write!(out, "<use href='#n' x='{x}'/>\n")
}

/// Writes the ruler's number at each tenth place, and the names once more at each hundredth.
fn put_ruler_step(out: &mut String, place: u32) -> Result<(), NoMemory>
    ensures { OnOk result (string_bytes out.new ≡ string_bytes out.old ++ ruler_step place) }
{
    if place % 100 == 99 {
        put_repeat(out, place)
    } else if place % 10 == 0 {
        put_tick(out, place)
    } else {
        Ok(())
    }
}

/// Writes the ruler.
pub fn put_ruler(out: &mut String, groups: &[Group]) -> Result<(), NoMemory>
    ensures { OnOk result (string_bytes out.new ≡ string_bytes out.old
        ++ flat_map (λ g. ruler_step g.place) groups.now) }
{
    for group in groups {
        put_ruler_step(out, group.place)?;
    }
    Ok(())
}
