//! What is to be captured next: the queue, and the repeating list.
ghost use Rattle.std.specs.Prelude.{◌≡◌, ◌<◌, ◌^◌, not, reverse, filter, length};
ghost use Rattle.std.specs.List.{list_any};
ghost use Rattle.judge_filters.specs.Past.{or_first};
ghost use Rattle.trace_model.specs.Entry.{takes};
ghost use Rattle.trace_model.specs.Queue.{named, puts, queued, is_taken, first_in};

use crate::wanted::{Wanted, stands};
use cam_types::{Item, Reply, RequestId, Script, WaitingItem};
use judge_entries::command::{command_at, queued_items};
use trace_model::Entry;

/// Whether a send or a drop names the item.
pub fn is_taken(entries: &[Entry], request: RequestId, place: u32) -> bool
    ensures { result ≡ list_any (takes request.0 place) (reverse entries.now) }
{
    stands(entries, Wanted::Taking(request, place))
}

/// The first of a request's items that isn't taken.
fn first_left(entries: &[Entry], request: RequestId, items: &[Item]) -> Option<WaitingItem>
    requires { length items.now < 2 ^ 32 }
    ensures { result ≡ first_in (filter (λ w. not (is_taken (reverse entries.now) w)) (named request 0 items.now)) }
{
    for (index, item) in items.iter().enumerate() {
        if !is_taken(entries, request, index as u32) {
            return Some(WaitingItem {
                request,
                index: index as u32,
                item: *item,
            });
        }
    }
    None
}

/// The first of the items that the entry puts into the queue that isn't taken.
fn first_put(script: &Script, entries: &[Entry], entry: &Entry) -> Option<WaitingItem>
    ensures { result ≡ first_in (filter (λ w. not (is_taken (reverse entries.now) w)) (puts script.now entry.now)) }
{
    match entry {
        Entry::Call {
            index,
            reply: Reply::Submitted(request),
            ..
        } => first_left(entries, *request, queued_items(command_at(script, *index))),
        _ => None,
    }
}

/// The item where there is one, else the first of those that the entry puts into the queue that isn't taken.
fn or_first_put(
    first: Option<WaitingItem>,
    script: &Script,
    entries: &[Entry],
    entry: &Entry,
) -> Option<WaitingItem>
    ensures { let left = filter (λ w. not (is_taken (reverse entries.now) w)) (puts script.now entry.now) in result ≡
        or_first first (first_in left) }
{
    match first {
        Some(_) => first,
        None => first_put(script, entries, entry),
    }
}

/// The first item of the queue.
#[tactic(auto, using(crate::proofs::QueueLemmas::first_more))]
pub fn first_queued(script: &Script, entries: &[Entry]) -> Option<WaitingItem>
    ensures { result ≡ first_in (queued script.now (reverse entries.now)) }
{
    let mut first = None;
    for entry in entries {
        first = or_first_put(first, script, entries, entry);
    }
    first
}
