//! Which requests a rule speaks of, and whether there are such requests.
ghost use Rattle.std.specs.Prelude.{◌≡◌, ◌&&◌, ◌||◌, not, ℕ};
ghost use Rattle.std.specs.List.{list_all, list_any};
ghost use Rattle.std.specs.Map.Iter.{ShowsInOrder, deref_pair};
ghost use Rattle.hal_rows.specs.declared.row.Row.{Row as ARow};
ghost use Rattle.hal_rows.specs.Judged.{is_row_awaited, is_row_in_flight, is_row_left_by_flush, is_row_newly_complete, is_row_silent, is_row_unlit};
ghost use Rattle.hal_table.specs.State.{state_of};
ghost use Rattle.hal_checks.specs.Meant.{is_meant};

use hal_model::HalEvent;
use hal_row::row::{is_complete, is_done, is_in_call, is_in_time, is_outstanding, is_unannounced};
use hal_rows::{Row, TargetRow};
use hal_table::HalTable;
use lru::Iter;

fn are_back(targets: &[TargetRow]) -> bool
    ensures { result ≡ list_all (λ t. t.back) targets.now }
{
    targets.iter().all(|target| target.back)
}

fn is_awaited(row: &Row) -> bool
    ensures { result ≡ is_row_awaited row.now }
{
    row.accepted
        && !(((row.last_part || (row.result_error || row.failed)) || row.last_empty)
            && are_back(row.targets.as_slice()))
}

/// Whether the request stands in the way of a configuration.
fn is_in_flight(row: &Row) -> bool
    ensures { result ≡ is_row_in_flight row.now }
{
    is_in_call(row) || (is_awaited(row) && !row.flushed)
}

/// Whether the request was accepted before the flush, and is outstanding.
fn is_left_by_flush(row: &Row) -> bool
    ensures { result ≡ is_row_left_by_flush row.now }
{
    row.before_flush && is_outstanding(row)
}

fn is_newly_complete(event: &HalEvent, row: &Row) -> bool
    ensures { result ≡ is_row_newly_complete event.now row.now }
{
    is_complete(row) && (!is_done(row) && is_in_time(event, row))
}

/// Whether a buffer of the request is in error without its notice.
pub fn is_silent(event: &HalEvent, row: &Row) -> bool
    ensures { result ≡ is_row_silent event.now row.now }
{
    is_newly_complete(event, row) && is_unannounced(row)
}

/// Whether something good of the request stands, and no shutter.
fn is_unlit(event: &HalEvent, row: &Row) -> bool
    ensures { result ≡ is_row_unlit event.now row.now }
{
    is_newly_complete(event, row) && (!row.failed && (row.something && !row.shutter))
}

/// Which requests are meant: those in flight, those outstanding, those of them that a flush left, and those that are
/// newly complete and lack the notice of a buffer in error, or their shutter.
#[derive(Clone, Copy)]
pub enum Which {
    InFlight,
    Outstanding,
    Left,
    Silent,
    Unlit,
}

/// Whether the request is one of those that are meant.
pub fn is_meant(which: Which, event: &HalEvent, row: &Row) -> bool
    ensures { result ≡ is_meant which event.now row.now }
{
    match which {
        Which::InFlight => is_in_flight(row),
        Which::Outstanding => is_outstanding(row),
        Which::Left => is_left_by_flush(row),
        Which::Silent => is_silent(event, row),
        Which::Unlit => is_unlit(event, row),
    }
}

fn is_some_of(which: Which, event: &HalEvent, rows: Iter<'_, u32, Row>) -> bool
    requires { ShowsInOrder (deref_pair {K = ℕ} {X = ARow}) }
    ensures { result ≡ list_any (λ e. is_meant which event.now e.1) rows.entry }
{
    let mut rows = rows;
    rows.any(|(_, row)| is_meant(which, event, row))
}

/// Whether there is such a request.
pub fn is_some_meant(which: Which, event: &HalEvent, table: &HalTable) -> bool
    ensures { result ≡ list_any (is_meant which event.now) (state_of table.now).rows }
{
    is_some_of(which, event, table.rows())
}
