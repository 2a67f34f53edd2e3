//! A hal log as a chart.
ghost use Rattle.std.specs.Prelude.{◌≡◌, [], IfOk, IsTrue, map};
ghost use Rattle.std.specs.List.{list_all};
ghost use Rattle.hal_model.specs.Fits.{is_well_made};
ghost use Rattle.hal_timeline.specs.Charts.{breaches_of, chart_of};
ghost use Rattle.hal_timeline.specs.Groups.{is_some_breach};
ghost use Rattle.hal_timeline.specs.Passes.{IsPast};
ghost use Rattle.hal_timeline.specs.Pieces.{gone_piece};

use crate::group::{Pass, draw_all};
use crate::note::notes_of;
use crate::piece::put_unfinished;
use crate::rows::Rows;
use cam_types::NoMemory;
use hal_model::Breach;
use hal_text::HalLog;
use std::alloc::Global;
use std::mem;
use timeline_model::{Chart, Kind, Lane, Look, Piece, Seat, Series};

/// The chart of a log, and whether the log breaks a rule.
#[derive(Drop)]
pub struct Judged {
    pub chart: Chart,
    pub broken: bool,
}

fn is_some_breach(breaches: &[Breach]) -> bool
    ensures { result ≡ is_some_breach breaches.now }
{
    matches!(breaches, [_, ..])
}

/// The bars of the buffers that aren't back at the end.
fn all_unfinished(alloc: Global, seats: &[Seat]) -> Result<Series<Piece>, NoMemory>
    ensures { IfOk result (λ pieces. pieces ≡ map (gone_piece Look.Unfinished) seats.now) }
{
    let mut pieces = Series::new(alloc);
    put_unfinished(&mut pieces, seats)?;
    Ok(pieces)
}

/// The lanes, which are moved out.
fn lanes_of(alloc: Global, rows: &mut Rows) -> Series<Lane>
    ensures { result ≡ rows.old.lanes.items }
{
    Series::of(mem::replace(&mut rows.lanes, Vec::new(alloc)))
}

/// Draws and judges a hal log in one pass from its first event on.
fn judged_in(alloc: Global, pass: &mut Pass, log: &HalLog) -> Result<Judged, NoMemory>
    requires made { IsTrue (list_all is_well_made log.now.events) }
    requires first { IsPast log.now.parts [] pass.old }
    ensures chart { IfOk result (λ judged. judged.chart ≡ chart_of log.now) }
    ensures broken { IfOk result (λ judged. judged.broken ≡ is_some_breach (breaches_of log.now)) }
{
    let count = log.events.len();
    let events = log.events.as_slice();
    let groups = draw_all(alloc, pass, log.parts, &log.lines, events)?;
    let breaches = pass.breaches.as_slice();
    let notes = notes_of(alloc, &log.lines, breaches, pass.walk.rows.left)?;
    let seats = pass.walk.rows.seats.as_slice();
    let unfinished = all_unfinished(alloc, seats)?;
    let broken = is_some_breach(breaches);
    let rows = pass.walk.rows.most.min(15) + 1;
    Ok(Judged {
        chart: Chart {
            kind: Kind::Hal,
            rows,
            lanes: lanes_of(alloc, &mut pass.walk.rows),
            count,
            groups,
            unfinished,
            fault: None,
            notes,
        },
        broken,
    })
}

/// Draws a hal log, judged by all rules that aren't strict.
pub fn chart_of(alloc: Global, log: &HalLog) -> Result<Judged, NoMemory>
    requires made { IsTrue (list_all is_well_made log.now.events) }
    ensures chart { IfOk result (λ judged. judged.chart ≡ chart_of log.now) }
    ensures broken { IfOk result (λ judged. judged.broken ≡ is_some_breach (breaches_of log.now)) }
{
    let mut pass = Pass::new(alloc)?;
    judged_in(alloc, &mut pass, log)
}
