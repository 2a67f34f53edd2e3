//! What later requests brought back.
ghost use Rattle.std.specs.Prelude.{◌≡◌, ℕ};
ghost use Rattle.std.specs.Map.Iter.{ShowsInOrder, deref_pair};
ghost use Rattle.hal_rows.specs.declared.row.Row.{Row as ARow};
ghost use Rattle.std.specs.List.{list_any};
ghost use Rattle.hal_row.specs.Raised.{target_brings, targets_bring};
ghost use Rattle.hal_rows.specs.State.{brings, is_later_in_call, later_at};
ghost use Rattle.hal_table.specs.State.{state_of};

use hal_row::row::is_in_call;
use hal_rows::{Order, Row, TargetRow};
use hal_table::HalTable;
use lru::Iter;

/// Whether the target brought back what the order asks for.
fn target_brings(order: Order, target: &TargetRow) -> bool
    ensures { result ≡ target_brings target.now order }
{
    match order {
        Order::Sound => false,
        Order::Filled(stream) => target.target.stream == stream && target.filled,
        Order::Orderly(stream) => target.target.stream == stream && target.orderly,
        Order::Other(stream) => target.target.stream == stream && target.other,
    }
}

fn targets_bring(order: Order, targets: &[TargetRow]) -> bool
    ensures { result ≡ targets_bring targets.now order }
{
    targets.iter().any(|target| target_brings(order, target))
}

/// Whether the row's request brought back what the order asks for.
fn brings(order: Order, row: &Row) -> bool
    ensures { result ≡ brings order row.now }
{
    match order {
        Order::Sound => row.sound,
        _ => targets_bring(order, row.targets.as_slice()),
    }
}

/// Whether the other row is a later one, in call, that brought it back.
fn is_later_in_call(order: Order, row: &Row, other: &Row) -> bool
    ensures { result ≡ is_later_in_call (brings order) row.now other.now }
{
    is_in_call(other) && (row.rank < other.rank && brings(order, other))
}

fn is_some_later_in_call_of(order: Order, row: &Row, rows: Iter<'_, u32, Row>) -> bool
    requires { ShowsInOrder (deref_pair {K = ℕ} {X = ARow}) }
    ensures { result ≡ list_any (λ e. is_later_in_call (brings order) row.now e.1) rows.entry }
{
    let mut rows = rows;
    rows.any(|(_, other)| is_later_in_call(order, row, other))
}

fn is_some_later_in_call(order: Order, row: &Row, table: &HalTable) -> bool
    ensures { result ≡ list_any (is_later_in_call (brings order) row.now) (state_of table.now).rows }
{
    is_some_later_in_call_of(order, row, table.rows())
}

/// The same, where mostly no request is in call.
#[tactic(auto, using(crate::proofs::LaterRows::none_later))]
fn has_later_in_call(order: Order, row: &Row, table: &HalTable) -> bool
    ensures { result ≡ list_any (is_later_in_call (brings order) row.now) (state_of table.now).rows }
{
    table.is_requesting() && is_some_later_in_call(order, row, table)
}

/// Whether a later request than the row's brought back what the order asks for.
pub(crate) fn is_later(order: Order, row: &Row, table: &HalTable) -> bool
    ensures { result ≡ later_at order row.now (state_of table.now) }
{
    u64::from(row.rank) + 1 < table.top(order) || has_later_in_call(order, row, table)
}
