//! What is sent next: the first of the queue, or where it is empty the repeating list's item in turn.
ghost use Rattle.std.specs.Prelude.{◌≡◌, ◌<◌, ◌^◌, Some, is_some, length, reverse, option_copied};
ghost use Rattle.judge_filters.specs.Turns.{repeating_in, sets_repeating};
ghost use Rattle.trace_model.specs.Queue.{is_clearing_word, is_repeat_word, next, next_repeating, repeating};
ghost use Rattle.trace_model.specs.Queue.{repeating_of, request_in};

use crate::queue::first_queued;
use crate::wanted::{Wanted, last};
use cam_types::{Command, Item, Queued, Reply, RequestId, Script, Word};
use judge_entries::command::{command_at, is_repeat};
use judge_entries::entry::is_refusal;
use judge_entries::number::sent_for;
use trace_model::Entry;

/// Whether a command with the word sets the repeating list.
fn is_repeat_word(word: Word) -> bool
    ensures { result ≡ is_repeat_word word }
{
    matches!(word, Word::Repeat)
}

/// Whether a command with the word clears the repeating list.
fn is_clearing_word(word: Word) -> bool
    ensures { result ≡ is_clearing_word word }
{
    matches!(
        word,
        Word::Stop | Word::Flush | Word::Configure | Word::Close | Word::Disconnect
    )
}

/// Whether the entry accepts a command that sets or clears the repeating list.
pub(crate) fn sets_repeating(entry: &Entry) -> bool
    ensures { result ≡ sets_repeating entry.now }
{
    match entry {
        Entry::Call { word, reply, .. } => {
            !is_refusal(reply) && (is_repeat_word(*word) || is_clearing_word(*word))
        }
        _ => false,
    }
}

/// The number of the request that was accepted, 0 where none was.
fn request_in(reply: &Reply) -> RequestId
    ensures { result ≡ request_in reply.now }
{
    match reply {
        Reply::Submitted(request) => *request,
        _ => RequestId(0),
    }
}

/// The item of the request's list whose turn it is.
fn in_turn(entries: &[Entry], request: RequestId, items: &[Item]) -> Option<Queued>
    requires { length items.now < 2 ^ 32 }
    ensures { result ≡ next_repeating (Some (record { request = request; items = items.now })) (reverse entries.now) }
{
    if items.is_empty() {
        return None;
    }
    let index = sent_for(entries, request) % items.len();
    match items.get(index) {
        Some(item) => Some(Queued {
            request,
            index: index as u32,
            item: *item,
            repeating: true,
        }),
        None => None,
    }
}

/// The item whose turn it is, of the list that the command repeats.
fn in_turn_of(entries: &[Entry], request: RequestId, command: Option<&Command>) -> Option<Queued>
    ensures { result ≡ next_repeating (repeating_of (option_copied command.entry) request) (reverse entries.now) }
{
    match command {
        Some(Command::Repeat(items)) => {
            let _count = items.len();
            in_turn(entries, request, items.as_slice())
        }
        _ => None,
    }
}

/// The item whose turn it is, of the list that the call leaves.
fn in_turn_after(script: &Script, entries: &[Entry], call: Option<&Entry>) -> Option<Queued>
    ensures { result ≡ next_repeating (repeating_in script.now (option_copied call.entry)) (reverse entries.now) }
{
    match call {
        Some(Entry::Call { index, word, reply }) => {
            if is_repeat_word(*word) {
                in_turn_of(entries, request_in(reply), command_at(script, *index))
            } else {
                None
            }
        }
        _ => None,
    }
}

/// The repeating list's item in turn.
#[tactic(auto, using(crate::proofs::RepeatLemmas::repeating_found))]
pub fn next_repeating(script: &Script, entries: &[Entry]) -> Option<Queued>
    ensures { result ≡ next_repeating (repeating script.now (reverse entries.now)) (reverse entries.now) }
{
    in_turn_after(script, entries, last(entries, Wanted::RepeatSetting))
}

/// Whether the call leaves a repeating list.
fn leaves_a_list(script: &Script, call: Option<&Entry>) -> bool
    ensures { result ≡ is_some (repeating_in script.now (option_copied call.entry)) }
{
    match call {
        Some(Entry::Call { index, word, .. }) => {
            is_repeat_word(*word) && is_repeat(command_at(script, *index))
        }
        _ => false,
    }
}

/// Whether there is a repeating list.
#[tactic(auto, using(crate::proofs::RepeatLemmas::repeating_found))]
pub fn is_list_repeating(script: &Script, entries: &[Entry]) -> bool
    ensures { result ≡ is_some (repeating script.now (reverse entries.now)) }
{
    leaves_a_list(script, last(entries, Wanted::RepeatSetting))
}

/// The next item.
pub fn next_item(script: &Script, entries: &[Entry]) -> Option<Queued>
    ensures { result ≡ next script.now (reverse entries.now) }
{
    match first_queued(script, entries) {
        Some(waiting) => Some(Queued {
            request: waiting.request,
            index: waiting.index,
            item: waiting.item,
            repeating: false,
        }),
        None => next_repeating(script, entries),
    }
}
