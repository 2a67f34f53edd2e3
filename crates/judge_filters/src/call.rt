//! The client's commands: which has begun, which were accepted, and whether the service is closed.
ghost use Rattle.std.specs.Prelude.{◌≡◌, reverse, option_copied};
ghost use Rattle.trace_model.specs.Calls.{begun, command_of, item_at, is_repeating, accepts, is_closed};
ghost use Rattle.trace_model.specs.Calls.{is_closing_word as closes};
ghost use Rattle.judge_filters.specs.Past.{is_begin_or_call, begun_in, command_in};

use crate::wanted::{Wanted, last, stands};
use cam_types::{Command, Item, RequestId, Script, Word};
use judge_entries::command::{command_at, is_repeat, item_of};
use judge_entries::entry::{is_closing_word, is_refusal};
use trace_model::Entry;

/// Whether the entry is a begin or a call.
pub fn is_begin_or_call(entry: &Entry) -> bool
    ensures { result ≡ is_begin_or_call entry.now }
{
    matches!(entry, Entry::Begin { .. } | Entry::Call { .. })
}

/// The word of a begin.
fn begun_in(entry: Option<&Entry>) -> Option<Word>
    ensures { result ≡ begun_in (option_copied entry.entry) }
{
    match entry {
        Some(Entry::Begin { word }) => Some(*word),
        _ => None,
    }
}

/// The word of the command that has begun and has no call yet.
#[tactic(auto, using(crate::proofs::PastLemmas::begun_found))]
pub fn begun(entries: &[Entry]) -> Option<Word>
    ensures { result ≡ begun (reverse entries.now) }
{
    begun_in(last(entries, Wanted::BeginOrCall))
}

/// The script's command that a call answers.
fn command_in<'s>(script: &'s Script, entry: Option<&Entry>) -> Option<&'s Command>
    ensures { option_copied result ≡ command_in script.now (option_copied entry.entry) }
{
    match entry {
        Some(Entry::Call { index, .. }) => command_at(script, *index),
        _ => None,
    }
}

/// The command that was accepted as the request.
#[tactic(auto, using(crate::proofs::PastLemmas::command_found))]
pub fn command_of<'s>(
    script: &'s Script,
    entries: &[Entry],
    request: RequestId,
) -> Option<&'s Command>
    ensures { option_copied result ≡ command_of script.now (reverse entries.now) request.0 }
{
    command_in(script, last(entries, Wanted::Submission(request)))
}

/// The request's item at the place.
pub fn item_at(script: &Script, entries: &[Entry], request: RequestId, place: u32) -> Option<Item>
    ensures { result ≡ item_at script.now (reverse entries.now) request.0 place }
{
    item_of(command_of(script, entries, request), place)
}

/// Whether the request is a repeating one.
pub fn is_repeating(script: &Script, entries: &[Entry], request: RequestId) -> bool
    ensures { result ≡ is_repeating script.now (reverse entries.now) request.0 }
{
    is_repeat(command_of(script, entries, request))
}

/// Whether the entry accepts a close or a disconnect.
pub(crate) fn closes(entry: &Entry) -> bool
    ensures { result ≡ accepts closes entry.now }
{
    match entry {
        Entry::Call { word, reply, .. } => !is_refusal(reply) && is_closing_word(*word),
        _ => false,
    }
}

/// Whether the service is closed for good: an accepted close or disconnect stands.
pub fn is_closed(entries: &[Entry]) -> bool
    ensures { result ≡ is_closed (reverse entries.now) }
{
    stands(entries, Wanted::Closing)
}
