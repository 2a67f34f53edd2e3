//! The first refusal of one item: its targets, then its settings.
ghost use Rattle.std.specs.Prelude.{◌≡◌, ◌==◌, ◌<◌, ◌^◌, [], not, nat_lt, find, take, length, reverse, option_copied};
ghost use Rattle.std.specs.List.{list_any};
ghost use Rattle.cam_types.specs.Refusals.{first_repeated, targets_refusal, item_refusal, items_refusal, list_refusal};

use cam_types::{
    BAD_SETTING, EMPTY_LIST, Item, ItemList, NO_TARGETS, REPEATED_STREAM, Reply, Targets,
    UNKNOWN_STREAM,
};
use metadata::range_fault;

/// The targets that were written.
#[tactic(auto, using(std::proofs::lemmas::List::take_all))]
fn written(targets: &Targets) -> &[u8]
    ensures { result.now ≡ take targets.now.count targets.now.list }
{
    let count = targets.count as usize;
    if count < targets.list.len() {
        &targets.list[..count]
    } else {
        &targets.list
    }
}

/// The first target that isn't one of so many streams.
fn find_unknown(streams: usize, targets: &[u8]) -> Option<&u8>
    ensures { option_copied result ≡ find (λ t. not (nat_lt t streams)) targets.now }
{
    targets.iter().find(|target| **target as usize >= streams)
}

/// The number of the first target that isn't one of so many streams.
fn first_unknown(streams: usize, targets: &[u8]) -> Option<u32>
    ensures { result ≡ find (λ t. not (nat_lt t streams)) targets.now }
{
    match find_unknown(streams, targets) {
        Some(target) => Some(*target as u32),
        None => None,
    }
}

/// Whether the stream is among the targets.
fn occurs(targets: &[u8], stream: u8) -> bool
    ensures { result ≡ list_any (λ s. s == stream) (reverse targets.now) }
{
    targets.iter().rev().any(|target| *target == stream)
}

/// The first target that occurred before.
fn first_repeated(targets: &[u8]) -> Option<u32>
    ensures { result ≡ first_repeated [] targets.now }
{
    for (place, target) in targets.iter().enumerate() {
        if occurs(&targets[..place], *target) {
            return Some(*target as u32);
        }
    }
    None
}

/// The refusal of the targets of the item at the place.
fn targets_refusal(streams: usize, place: u32, targets: &[u8]) -> Option<Reply>
    ensures { result ≡ targets_refusal streams place targets.now }
{
    if targets.is_empty() {
        return Some(Reply::refused_at(NO_TARGETS, place));
    }
    match Reply::refused_for(UNKNOWN_STREAM, place, first_unknown(streams, targets)) {
        Some(refused) => Some(refused),
        None => Reply::refused_for(REPEATED_STREAM, place, first_repeated(targets)),
    }
}

/// The refusal of the item at a place, where so many streams are configured: it has no target, its first target that
/// isn't a stream, its first target that occurred before, or its least setting out of range. None exactly where none of
/// these holds.
pub fn item_refusal(streams: usize, place: u32, item: &Item) -> Option<Reply>
    ensures { result ≡ item_refusal streams place item.now }
{
    match targets_refusal(streams, place, written(&item.targets)) {
        Some(refused) => Some(refused),
        None => Reply::refused_for(BAD_SETTING, place, range_fault(item.settings)),
    }
}

/// The refusal of the first item that is refused, with its place from 0 on. None exactly where each is accepted.
pub fn items_refusal(streams: usize, items: &[Item]) -> Option<Reply>
    requires { length items.now < 2 ^ 32 }
    ensures { result ≡ items_refusal streams 0 items.now }
{
    for (place, item) in items.iter().enumerate() {
        let refusal = item_refusal(streams, place as u32, item);
        if refusal.is_some() {
            return refusal;
        }
    }
    None
}

/// The refusal of a list: that it has no item, or that of the first item that is refused.
pub fn list_refusal(streams: usize, items: &ItemList) -> Option<Reply>
    ensures { result ≡ list_refusal streams items.now }
{
    if items.len() == 0 {
        return Some(Reply::refused(EMPTY_LIST));
    }
    items_refusal(streams, items.as_slice())
}
