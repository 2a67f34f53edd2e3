//! A question about an entry.
ghost use Rattle.std.specs.Prelude.{◌≡◌, Bool};
ghost use Rattle.trace_model.specs.declared.entry.Entry.{Entry as SomeEntry};

use trace_model::Entry;

/// A question about an entry: which ones are shown.
pub trait Choice {
    /// Whether an entry is one of them.
    ghost test: { Self → SomeEntry → Bool };

    /// Whether the entry is one of them.
    fn holds(&self, entry: &Entry) -> bool
        ensures { result ≡ test self.now entry.now };
}
