//! How many items wait.
ghost use Rattle.std.specs.Prelude.{◌≡◌, ◌≤◌, ◌<◌, ◌^◌, not, reverse, filter, length};
ghost use Rattle.trace_model.specs.Queue.{named, puts, queued, is_taken};
ghost use Rattle.trace_model.specs.Reply.{queue_refusal};

use cam_types::{Item, QUEUE_FULL, QUEUE_LIMIT, Reply, RequestId, Script};
use judge_entries::command::{command_at, queued_items};
use judge_filters::queue::is_taken;
use trace_model::Entry;

/// How many of the request's items aren't taken.
fn count_left(entries: &[Entry], request: RequestId, items: &[Item]) -> usize
    requires { length items.now < 2 ^ 32 }
    ensures value { result ≡ length (filter (λ w. not (is_taken (reverse entries.now) w)) (named request 0 items.now)) }
    ensures few { result ≤ length items.now }
{
    let mut count = 0;
    for index in 0..items.len() {
        if !is_taken(entries, request, index as u32) {
            count += 1;
        }
    }
    count
}

/// How many of the items that the entry puts into the queue aren't taken.
fn count_put(script: &Script, entries: &[Entry], entry: &Entry) -> usize
    ensures value { result ≡ length (filter (λ w. not (is_taken (reverse entries.now) w)) (puts script.now entry.now)) }
    ensures few { result < 2 ^ 32 }
{
    match entry {
        Entry::Call {
            index,
            reply: Reply::Submitted(request),
            ..
        } => count_left(entries, *request, queued_items(command_at(script, *index))),
        _ => 0,
    }
}

/// How many items wait in the queue.
#[tactic(auto, using(crate::proofs::ListLemmas::kept_more))]
pub fn queue_length(script: &Script, entries: &[Entry]) -> u128
    ensures value { result ≡ length (queued script.now (reverse entries.now)) }
    ensures few { result < 2 ^ 100 }
{
    let mut count: u128 = 0;
    for entry in entries {
        count += count_put(script, entries, entry) as u128;
    }
    count
}

/// The refusal of further items, where more would wait than the queue takes.
pub fn queue_refusal(script: &Script, entries: &[Entry], items: &[Item]) -> Option<Reply>
    ensures { result ≡ queue_refusal script.now (reverse entries.now) items.now }
{
    let waiting = queue_length(script, entries) + items.len() as u128;
    Reply::refused_where(waiting > QUEUE_LIMIT as u128, QUEUE_FULL)
}
