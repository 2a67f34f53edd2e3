//! What a legal run lacks for being complete.
ghost use Rattle.std.specs.Prelude.{◌≡◌, reverse};
ghost use Rattle.std.specs.List.{list_all};
ghost use Rattle.trace_model.specs.Complete.{is_all_called, is_all_signalled};
ghost use Rattle.trace_model.specs.Fence.{is_signalled};
ghost use Rattle.trace_check.specs.Released.{on_release};
ghost use Rattle.trace_model.specs.Verdict.{first_missing};

use cam_types::Script;
use judge_entries::number::call_count;
use judge_filters::fence::is_signalled;
use judge_filters::open::is_quiet;
use judge_rules::over::is_queue_empty;
use judge_rules::pool::all_in_pool;
use trace_model::{Entry, MissingPart};

/// Whether every command of the script was called.
fn is_all_called(script: &Script, entries: &[Entry]) -> bool
    ensures { result ≡ is_all_called script.now (reverse entries.now) }
{
    call_count(entries) == script.commands.len() as usize
}

/// Whether the fence that the entry releases, if it releases one, is signalled.
fn is_release_signalled(entries: &[Entry], entry: &Entry) -> bool
    ensures { result ≡ on_release (λ f. is_signalled f (reverse entries.now)) entry.now }
{
    match entry {
        Entry::Release { fence, .. } => is_signalled(entries, *fence),
        _ => true,
    }
}

fn all_releases_signalled(entries: &[Entry]) -> bool
    ensures { result ≡ list_all (on_release (λ f. is_signalled f (reverse entries.now))) (reverse entries.now) }
{
    entries
        .iter()
        .rev()
        .all(|entry| is_release_signalled(entries, entry))
}

/// Whether every fence that was released is signalled.
fn is_all_signalled(entries: &[Entry]) -> bool
    ensures { result ≡ is_all_signalled (reverse entries.now) }
{
    all_releases_signalled(entries)
}

/// The first part that is missing.
pub fn first_missing(script: &Script, entries: &[Entry]) -> Option<MissingPart>
    ensures { result ≡ first_missing script.now (reverse entries.now) }
{
    if !is_all_called(script, entries) {
        Some(MissingPart::Calls)
    } else if !is_quiet(entries) {
        Some(MissingPart::Open)
    } else if !is_queue_empty(script, entries) {
        Some(MissingPart::Queued)
    } else if !all_in_pool(entries) {
        Some(MissingPart::Pool)
    } else if !is_all_signalled(entries) {
        Some(MissingPart::Signal)
    } else {
        None
    }
}
