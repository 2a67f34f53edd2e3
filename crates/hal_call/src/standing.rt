//! What stands of the past of an entry: whether a command flushes the device depends on it.
ghost use Rattle.std.specs.Prelude.{◌≡◌, ◌&&◌, not, List, [], ◌∷◌};
ghost use Rattle.hal_call.specs.Standing.{standing_of};
ghost use Rattle.hal_model.specs.Hal.{flushes};
ghost use Rattle.trace_model.specs.Calls.{accepts};
ghost use Rattle.trace_model.specs.Calls.{is_closing_word as closes};
ghost use Rattle.trace_model.specs.Entry.{is_refusal as refuses};
ghost use Rattle.trace_model.specs.declared.entry.Entry.{Entry as SomeEntry};

use cam_types::{Reply, Word};
use judge_entries::entry::{configures, is_closing_word, is_error_device, is_refusal};
use trace_model::Entry;

/// What stands: an accepted close or disconnect, a failure of the device, an accepted configuration.
#[derive(Clone, Copy)]
pub struct Standing {
    pub closed: bool,
    pub failed: bool,
    pub configured: bool,
}

/// Whether the reply accepts a command that closes the service.
pub fn is_closing(word: Word, reply: &Reply) -> bool
    ensures { result ≡ (not (refuses reply.now) && closes word) }
{
    !is_refusal(reply) && is_closing_word(word)
}

/// Whether the entry accepts a close or a disconnect.
fn closes(entry: &Entry) -> bool
    ensures { result ≡ accepts closes entry.now }
{
    match entry {
        Entry::Call { word, reply, .. } => is_closing(*word, reply),
        _ => false,
    }
}

impl Standing {
    /// What stands of no entries.
    pub fn at_first() -> Standing
        ensures { result ≡ standing_of [] }
    {
        Standing {
            closed: false,
            failed: false,
            configured: false,
        }
    }

    /// What stands behind one more entry.
    pub fn behind(self, entry: &Entry) -> Standing
        ensures { (past : List SomeEntry) → self ≡ standing_of past → result ≡ standing_of (entry.now ∷ past) }
    {
        Standing {
            closed: closes(entry) || self.closed,
            failed: is_error_device(entry) || self.failed,
            configured: configures(entry) || self.configured,
        }
    }

    /// Whether the command flushes the device.
    pub fn flushes(self, word: Word) -> bool
        ensures { (past : List SomeEntry) → self ≡ standing_of past → result ≡ flushes word past }
    {
        match word {
            Word::Flush => !self.closed && (!self.failed && self.configured),
            Word::Disconnect => !self.closed && !self.failed,
            _ => false,
        }
    }
}
