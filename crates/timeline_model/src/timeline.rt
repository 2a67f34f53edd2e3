//! The timeline of a legal trace.
ghost use Rattle.std.specs.Prelude.{◌≡◌, ◌+◌, ◌*◌, ◌<◌, ◌≤◌, ◌^◌, ◌∷◌, [], IfOk, OnOk, length, reverse};
ghost use Rattle.trace_model.specs.Legal.{IsLegal};
ghost use Rattle.timeline_model.specs.Drawings.{all_drawn, drawn_of, seat_for};
ghost use Rattle.timeline_model.specs.Timelines.{timeline};
ghost use Rattle.timeline_model.specs.Walks.{Fits};

use crate::drawn::{Drawn, Timeline};
use crate::past::{Target, since, target_in};
use crate::walk::Walk;
use crate::{Seat, Series, seat_of};
use cam_types::{Listing, NoMemory, Script};
use std::alloc::Global;
use trace_model::Entry;

/// The seat of a target, where there is one.
fn seat_for(seats: &[Seat], target: Option<Target>) -> Option<Seat>
    ensures { result ≡ seat_for target seats.now }
{
    match target {
        Some(target) => seat_of(seats, target.frame.0, u32::from(target.stream.0)),
        None => None,
    }
}

/// What is drawn of an entry behind the entries, and what stands after it.
fn draw(
    walk: &mut Walk,
    script: &Script,
    entries: &[Entry],
    entry: &Entry,
) -> Result<Drawn, NoMemory>
    requires legal { IsLegal script.now (entry.now ∷ reverse entries.now) }
    requires fits { Fits script.now (reverse entries.now) walk.old }
    requires few { length entries.now < 4294967295 }
    requires queue { walk.old.queued ≤ length entries.now * 4294967295 }
    ensures drawn { IfOk result (λ drawn. drawn ≡ drawn_of script.now entry.now (reverse entries.now)) }
    ensures fits { OnOk result (Fits script.now (entry.now ∷ reverse entries.now) walk.new) }
    ensures queue { OnOk result (walk.new.queued ≤ (length entries.now + 1) * 4294967295) }
{
    let seat = seat_for(walk.seats.as_slice(), target_in(entries, entry));
    let began = since(entry, walk.begun, seat);
    walk.note(script, entries, entry)?;
    Ok(Drawn {
        place: entries.len() as u32,
        entry: *entry,
        since: began,
        seat,
        queued: walk.queued,
        stopping: walk.is_stopping(),
    })
}

/// What is drawn of each entry of a legal trace, and what stands after all of them.
fn draw_all(
    alloc: Global,
    walk: &mut Walk,
    script: &Script,
    entries: &[Entry],
) -> Result<Listing<Drawn>, NoMemory>
    requires legal { IsLegal script.now (reverse entries.now) }
    requires fits { Fits script.now [] walk.old }
    requires few { length entries.now < 2 ^ 32 }
    requires queue { walk.old.queued ≡ 0 }
    ensures drawn { IfOk result (λ drawn. drawn ≡ all_drawn script.now (reverse entries.now)) }
    ensures fits { OnOk result (Fits script.now (reverse entries.now) walk.new) }
{
    let mut all = Listing::new(alloc);
    for place in 0..entries.len() {
        let drawn = draw(walk, script, &entries[..place], &entries[place])?;
        all.push(drawn)?;
    }
    Ok(all)
}

/// What a timeline shows of a legal trace of the script.
pub fn timeline_of(alloc: Global, script: &Script, entries: &[Entry]) -> Result<Timeline, NoMemory>
    requires legal { IsLegal script.now (reverse entries.now) }
    requires few { length entries.now < 2 ^ 32 }
    ensures { IfOk result (λ shown. shown ≡ timeline script.now (reverse entries.now)) }
{
    let mut walk = Walk::new(alloc);
    let drawn = draw_all(alloc, &mut walk, script, entries)?;
    Ok(Timeline {
        depth: script.profile.depth,
        streams: walk.streams,
        drawn,
        unfinished: Series::of(walk.seats),
    })
}
