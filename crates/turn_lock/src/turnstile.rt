//! The turnstile: enter, leave, count, split, join and close.
//! Its table's words are the lock, the number of entries of the history, and how many threads wait.
ghost use Rattle.std.specs.Prelude.{◌≡◌};

use crate::kept::Kept;
use crate::plays::Rule;
use crate::view::View;
use atomic_table::Table;
use std::alloc::Global;
use std::snapshot::Snapshot;

mod looks;
mod seats;
mod turns;

/// A lock whose holder learns the history of the value that it keeps. It is spent by `close`.
pub struct Turnstile<S: Kept> {
    table: Table<Option<S>, View<S::Fixed, S::Entry, S::Job>, Snapshot<S>, Rule, Global>,
    ghost sized: { (table.shared.table_id.words ≡ 3) × (table.shared.table_id.slots ≡ 1) },
}
