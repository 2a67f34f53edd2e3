//! The fences that were released and aren't signalled.
ghost use Rattle.std.specs.Prelude.{Bool, reverse};
ghost use Rattle.explain_call.specs.Missing.{is_unsignalled};

use judge_filters::fence::is_signalled;
use trace_model::Entry;
use wrong_words::Choice;

/// Which entries release a fence that isn't signalled after the entries.
#[derive(Clone, Copy)]
pub struct Unsignalled<'e> {
    pub entries: &'e [Entry],
}

impl<'e> Choice for Unsignalled<'e> {
    ghost test = { λ choice. is_unsignalled (reverse choice.entries.now) };

    fn holds(&self, entry: &Entry) -> bool {
        match entry {
            Entry::Release { fence, .. } => !is_signalled(self.entries, *fence),
            _ => false,
        }
    }
}
