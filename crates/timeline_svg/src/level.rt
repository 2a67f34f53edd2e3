//! What goes through the whole picture: the level, and the bands while something stops.
ghost use Rattle.std.specs.Prelude.{◌≡◌, ◌≤◌, ◌++◌, OnOk, string_bytes};
ghost use Rattle.std.specs.List.{flat_map};
ghost use Rattle.timeline_svg.specs.Levels.{band_step, band_y, bands_text, ground_y, level_step, level_text, level_y};

use crate::pen::put;
use crate::place::shift;
use cam_types::NoMemory;
use timeline_model::{Group, Kind};

/// Where the line of the level has its ground.
fn ground_y(kind: Kind) -> u64
    ensures value { result ≡ ground_y kind }
    ensures low { 120 ≤ result }
{
    120 + shift(kind)
}

/// How high the level's line stands: two pixels each, up to twenty.
fn level_y(kind: Kind, level: u64) -> u64
    ensures { result ≡ level_y kind level }
{
    ground_y(kind) - 2 * level.min(20)
}

/// Writes the line's step at a place.
fn put_level_step(out: &mut String, kind: Kind, group: &Group) -> Result<(), NoMemory>
    ensures { OnOk result (string_bytes out.new ≡ string_bytes out.old ++ level_step kind group.now) }
{
    let y = level_y(kind, group.level);
    write!(out, "V{y}h10")
}

/// Writes the steps of the line.
fn put_level_steps(out: &mut String, kind: Kind, groups: &[Group]) -> Result<(), NoMemory>
    ensures { OnOk result (string_bytes out.new ≡ string_bytes out.old ++ flat_map (level_step kind) groups.now) }
{
    for group in groups {
        put_level_step(out, kind, group)?;
    }
    Ok(())
}

/// Writes the line of the level: how many items wait, or how many requests are live, after each line of the input.
pub fn put_level(out: &mut String, kind: Kind, groups: &[Group]) -> Result<(), NoMemory>
    ensures { OnOk result (string_bytes out.new ≡ string_bytes out.old ++ level_text kind groups.now) }
{
    let ground = ground_y(kind);
    write!(out, "<path class='q' d='M100 {ground}")?;
    put_level_steps(out, kind, groups)?;
    write!(out, "V{ground}z'/>\n")
}

/// Where a band ends, which is the picture's bottom, or its top where there is none.
fn band_y(bottom: u64, stopping: bool) -> u64
    ensures { result ≡ band_y bottom stopping }
{
    if stopping { bottom } else { 16 }
}

/// Writes a band's step at a place.
fn put_band_step(out: &mut String, bottom: u64, group: &Group) -> Result<(), NoMemory>
    ensures { OnOk result (string_bytes out.new ≡ string_bytes out.old ++ band_step bottom group.now) }
{
    let y = band_y(bottom, group.stopping);
    write!(out, "V{y}h10")
}

/// Writes the steps of the bands.
fn put_band_steps(out: &mut String, bottom: u64, groups: &[Group]) -> Result<(), NoMemory>
    ensures { OnOk result (string_bytes out.new ≡ string_bytes out.old ++ flat_map (band_step bottom) groups.now) }
{
    for group in groups {
        put_band_step(out, bottom, group)?;
    }
    Ok(())
}

/// Writes the bands while something stops, as steps of a line.
#[tactic(auto, unfolding(crate::specs::Levels::bands_text))]
pub fn put_bands(out: &mut String, bottom: u64, groups: &[Group]) -> Result<(), NoMemory>
    ensures { OnOk result (string_bytes out.new ≡ string_bytes out.old ++ bands_text bottom groups.now) }
{
    put(out, "<path class='u' d='M100 16")?;
    put_band_steps(out, bottom, groups)?;
    put(out, "V16z'/>\n")
}
