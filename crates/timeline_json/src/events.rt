//! The events of a chart.
ghost use Rattle.std.specs.Prelude.{◌≡◌, ◌++◌, ◌∷◌, false, IfOk, OnOk, string_bytes};
ghost use Rattle.std.specs.List.{flat_map};
ghost use Rattle.std.specs.Option.{option_map};
ghost use Rattle.serde_json.specs.View.{view};
ghost use Rattle.serde_json.specs.Written.{compact_text, has_float};
ghost use Rattle.timeline_json.specs.Timelines.{behind_commas, fault_event, fault_events, fault_group_text, flow_of, group_text, level_events, one_if, phase_of, piece_slice, piece_text, start_of, told_of, unfinished_event};

use crate::event::{flow, levels_at, slice_of};
use crate::text::{put_event, put_plain};
use crate::track::{fault_text, look_text, named, own, track_of};
use cam_types::NoMemory;
use serde_json::Value;
use std::alloc::Global;
use timeline_model::{Group, Kind, Look, Piece};

/// Where a slice begins.
fn start_of(place: u32, since: Option<u32>) -> u64
    ensures { result ≡ start_of place since }
{
    match since {
        Some(from) => u64::from(from),
        None => u64::from(place),
    }
}

/// The number of a line, and the line.
fn told_of(alloc: Global, group: &Group) -> Result<String, NoMemory>
    ensures { IfOk result (λ text. string_bytes text ≡ told_of group.now) }
{
    let number = group.line;
    let mut text = format!(in alloc; "{number} ")?;
    put_plain(&mut text, group.title.as_slice())?;
    Ok(text)
}

/// The slice of a piece, with what is told of it.
#[tactic(auto, unfolding(crate::specs::Timelines::piece_slice))]
fn piece_slice(alloc: Global, place: u32, told: &str, piece: &Piece) -> Result<Value, NoMemory>
    ensures value { IfOk result (λ v. view v ≡ piece_slice place told.now piece.now) }
    ensures plain { IfOk result (λ v. has_float (view v) ≡ false) }
{
    let name = named(alloc, look_text(piece.look), piece.frame)?;
    let from = start_of(place, piece.since);
    let length = (u64::from(place) + 1).saturating_sub(from);
    let track = track_of(piece.look, piece.seat);
    slice_of(alloc, track, from, length, name.as_str(), told)
}

/// What a piece is to the flow of its frame, where it is part of it.
fn phase_of(look: Look) -> Option<&'static str>
    ensures { option_map (λ phase. phase.now) result ≡ phase_of look }
{
    match look {
        Look::Send | Look::RequestBegin => Some("s"),
        Look::Filled | Look::Failed | Look::Unclear | Look::Early | Look::Late => Some("t"),
        _ => None,
    }
}

/// Writes the step of a frame's flow, where a piece is one.
fn put_flow(out: &mut Vec<u8>, alloc: Global, place: u32, piece: &Piece) -> Result<(), NoMemory>
    ensures { OnOk result (out.new.items ≡ out.old.items
        ++ behind_commas (flow_of place piece.now piece.now.frame (phase_of piece.now.look))) }
{
    let Some(frame) = piece.frame else {
        return Ok(());
    };
    let Some(phase) = phase_of(piece.look) else {
        return Ok(());
    };
    let track = track_of(piece.look, piece.seat);
    let step = flow(alloc, track, u64::from(place), u64::from(frame), phase)?;
    put_event(out, alloc, step)
}

/// Writes the events of a piece.
#[tactic(auto, unfolding(crate::specs::Timelines::piece_events))]
fn put_piece(
    out: &mut Vec<u8>,
    alloc: Global,
    place: u32,
    told: &str,
    piece: &Piece,
) -> Result<(), NoMemory>
    ensures { OnOk result (out.new.items ≡ out.old.items ++ piece_text place told.now piece.now) }
{
    let slice = piece_slice(alloc, place, told, piece)?;
    put_event(out, alloc, slice)?;
    put_flow(out, alloc, place, piece)
}

/// Writes the events of the pieces of a line.
fn put_pieces(
    out: &mut Vec<u8>,
    alloc: Global,
    place: u32,
    told: &str,
    pieces: &[Piece],
) -> Result<(), NoMemory>
    ensures { OnOk result (out.new.items ≡ out.old.items ++ flat_map (piece_text place told.now) pieces.now) }
{
    for piece in pieces {
        put_piece(out, alloc, place, told, piece)?;
    }
    Ok(())
}

/// The event of a line that isn't allowed, or breaks a rule.
#[tactic(auto, unfolding(crate::specs::Timelines::fault_event))]
fn fault_event(alloc: Global, kind: Kind, place: u32, told: &str) -> Result<Value, NoMemory>
    ensures value { IfOk result (λ v. view v ≡ fault_event kind place told.now) }
    ensures plain { IfOk result (λ v. has_float (view v) ≡ false) }
{
    slice_of(alloc, own(6), u64::from(place), 1, fault_text(kind), told)
}

/// Writes that event, where the line is at fault.
fn put_fault(
    out: &mut Vec<u8>,
    alloc: Global,
    kind: Kind,
    place: u32,
    told: &str,
    broken: bool,
) -> Result<(), NoMemory>
    ensures { OnOk result (out.new.items
        ≡ out.old.items ++ behind_commas (fault_events kind place told.now broken)) }
{
    if broken {
        let event = fault_event(alloc, kind, place, told)?;
        put_event(out, alloc, event)
    } else {
        Ok(())
    }
}

fn one_if(condition: bool) -> u64
    ensures { result ≡ one_if condition }
{
    if condition { 1 } else { 0 }
}

/// Writes the level and whether it stops, where they may have changed.
#[tactic(auto, unfolding(crate::specs::Timelines::level_events))]
fn put_level_events(out: &mut Vec<u8>, alloc: Global, group: &Group) -> Result<(), NoMemory>
    ensures { OnOk result (out.new.items ≡ out.old.items ++ behind_commas (level_events group.now)) }
{
    if group.counted {
        let stopping = one_if(group.stopping);
        let levels = levels_at(alloc, u64::from(group.place), group.level, stopping)?;
        put_event(out, alloc, levels)
    } else {
        Ok(())
    }
}

/// Writes the events of a line.
fn put_group(out: &mut Vec<u8>, alloc: Global, kind: Kind, group: &Group) -> Result<(), NoMemory>
    ensures { OnOk result (out.new.items ≡ out.old.items ++ group_text kind group.now) }
{
    let told = told_of(alloc, group)?;
    put_pieces(
        out,
        alloc,
        group.place,
        told.as_str(),
        group.pieces.as_slice(),
    )?;
    put_fault(out, alloc, kind, group.place, told.as_str(), group.broken)?;
    put_level_events(out, alloc, group)
}

/// Writes the events of all lines.
pub fn put_groups(
    out: &mut Vec<u8>,
    alloc: Global,
    kind: Kind,
    groups: &[Group],
) -> Result<(), NoMemory>
    ensures { OnOk result (out.new.items ≡ out.old.items ++ flat_map (group_text kind) groups.now) }
{
    for group in groups {
        put_group(out, alloc, kind, group)?;
    }
    Ok(())
}

/// Writes the events of the line that isn't allowed, where there is one.
pub fn put_fault_group(
    out: &mut Vec<u8>,
    alloc: Global,
    kind: Kind,
    fault: &Option<Group>,
) -> Result<(), NoMemory>
    ensures { OnOk result (out.new.items ≡ out.old.items ++ fault_group_text kind fault.now) }
{
    match fault {
        Some(group) => put_group(out, alloc, kind, group),
        None => Ok(()),
    }
}

/// The event of a bar that isn't ended.
#[tactic(auto, unfolding(crate::specs::Timelines::unfinished_event))]
fn unfinished_event(alloc: Global, last: u32, piece: &Piece) -> Result<Value, NoMemory>
    ensures value { IfOk result (λ v. view v ≡ unfinished_event last piece.now) }
    ensures plain { IfOk result (λ v. has_float (view v) ≡ false) }
{
    piece_slice(alloc, last, "isn't done", piece)
}

/// Writes the events of all bars that aren't ended.
pub fn put_all_unfinished(
    out: &mut Vec<u8>,
    alloc: Global,
    last: u32,
    pieces: &[Piece],
) -> Result<(), NoMemory>
    ensures { OnOk result (out.new.items ≡ out.old.items
        ++ flat_map (λ p. 44 ∷ compact_text (unfinished_event last p)) pieces.now) }
{
    for piece in pieces {
        let event = unfinished_event(alloc, last, piece)?;
        put_event(out, alloc, event)?;
    }
    Ok(())
}
