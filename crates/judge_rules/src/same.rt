//! Whether an entry is the one that is due.
ghost use Rattle.std.specs.Prelude.{◌≡◌, ◌↔◌, IsTrue, Option};

use trace_model::Entry;

/// Whether two entries are the same.
pub fn is_same_entry(a: Entry, b: Entry) -> bool
    ensures { IsTrue result ↔ (a ≡ b) }
{
    a == b
}

/// Whether the entry is the one that is due.
pub fn is_due(due: Option<Entry>, entry: Entry) -> bool
    ensures { IsTrue result ↔ (due ≡ Option.Some entry) }
{
    match due {
        Some(due) => is_same_entry(due, entry),
        None => false,
    }
}
