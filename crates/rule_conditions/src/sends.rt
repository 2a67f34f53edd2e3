//! The conditions of a send and of a drop.
ghost use Rattle.std.specs.Prelude.{◌≡◌, reverse};
ghost use Rattle.trace_model.specs.Queue.{next as next_of};
ghost use Rattle.trace_model.specs.Send.{holds_back};
ghost use Rattle.rule_conditions.specs.Parts.{next_holds};
ghost use Rattle.rule_conditions.specs.Sends.{are_of_item, drop_holds, is_first_item, is_next_item, of_next, send_holds};

use crate::Condition;
use crate::targets::targets_hold;
use cam_types::{Four, FrameNo, Queued, REPEATING_AHEAD, RequestId, Script, WaitingItem, Word};
use judge_entries::number::next_number;
use judge_filters::call::begun;
use judge_filters::next::next_item;
use judge_filters::open::open_count;
use judge_filters::queue::first_queued;
use judge_filters::stopping::is_stopping;
use judge_rules::ahead::{awaited, repeated_since_call};
use judge_rules::mark::{is_same_mark, mark_of};
use judge_rules::stream::are_streams;
use judge_rules::target::is_filled;
use trace_model::{Entry, Sent};

/// A send, as its entry says.
#[derive(Clone, Copy)]
pub struct Sending {
    pub frame: FrameNo,
    pub request: RequestId,
    pub item: u32,
    pub same: bool,
    pub targets: Four<Sent>,
}

fn is_next_item(next: Option<Queued>, request: RequestId, item: u32) -> bool
    ensures { result ≡ is_next_item next request.0 item }
{
    match next {
        Some(next) => request.0 == next.request.0 && item == next.index,
        None => false,
    }
}

fn are_of_item(targets: Four<Sent>, next: Queued) -> bool
    ensures { result ≡ are_of_item targets next }
{
    is_filled(targets) && are_streams(targets, next.item.targets)
}

fn is_held_back(begun: Option<Word>) -> bool
    ensures { result ≡ holds_back begun }
{
    matches!(begun, Some(Word::Configure) | Some(Word::Close))
}

/// Whether the next item meets the condition of a send.
fn next_holds(
    condition: Condition,
    script: &Script,
    entries: &[Entry],
    same: bool,
    targets: Four<Sent>,
    next: Queued,
) -> bool
    ensures { result ≡ next_holds condition script.now (reverse entries.now) same targets next }
{
    match condition {
        Condition::SendStreamsOfItem => are_of_item(targets, next),
        Condition::SendNothingHoldsBack => !next.repeating || !is_held_back(begun(entries)),
        Condition::SendNotTooFarAhead => {
            let ahead = u64::from(REPEATING_AHEAD) + u64::from(awaited(script, entries));
            !next.repeating || (repeated_since_call(script, entries) as u64) < ahead
        }
        Condition::SendMark => is_same_mark(same, mark_of(script, entries, next.item.settings)),
        _ => true,
    }
}

/// Whether the next item, where there is one, meets the condition of the send.
fn of_next(condition: Condition, script: &Script, entries: &[Entry], sending: Sending) -> bool
    ensures { let past = reverse entries.now in
        result ≡
        of_next (next_of script.now past) (next_holds condition script.now past sending.same sending.targets) }
{
    match next_item(script, entries) {
        Some(next) => next_holds(
            condition,
            script,
            entries,
            sending.same,
            sending.targets,
            next,
        ),
        None => true,
    }
}

/// Whether the send meets the condition.
pub fn send_holds(
    condition: Condition,
    script: &Script,
    entries: &[Entry],
    sending: Sending,
) -> bool
    ensures { result ≡
        send_holds condition script.now (reverse entries.now) sending.frame.0 sending.request.0 sending.item
        sending.same sending.targets }
{
    match condition {
        Condition::SendNextNumber => sending.frame.0 as usize == next_number(entries),
        Condition::SendNextItem => {
            is_next_item(next_item(script, entries), sending.request, sending.item)
        }
        Condition::SendNothingStops => !is_stopping(entries),
        Condition::SendFromPool => targets_hold(condition, script, entries, sending.targets),
        Condition::SendFenceOfBuffer => targets_hold(condition, script, entries, sending.targets),
        Condition::SendStreamsOfItem => of_next(condition, script, entries, sending),
        Condition::SendBelowDepth => open_count(entries) < script.profile.depth as usize,
        Condition::SendBelowMaxBuffers => targets_hold(condition, script, entries, sending.targets),
        Condition::SendNothingHoldsBack => of_next(condition, script, entries, sending),
        Condition::SendNotTooFarAhead => of_next(condition, script, entries, sending),
        Condition::SendMark => of_next(condition, script, entries, sending),
        _ => true,
    }
}

fn is_first_item(first: Option<WaitingItem>, request: RequestId, item: u32) -> bool
    ensures { result ≡ is_first_item first request.0 item }
{
    match first {
        Some(first) => request.0 == first.request.0 && item == first.index,
        None => false,
    }
}

/// Whether the drop meets the condition.
pub fn drop_holds(
    condition: Condition,
    script: &Script,
    entries: &[Entry],
    frame: FrameNo,
    request: RequestId,
    item: u32,
) -> bool
    ensures { result ≡ drop_holds condition script.now (reverse entries.now) frame.0 request.0 item }
{
    match condition {
        Condition::DropSomethingStops => is_stopping(entries),
        Condition::DropNextNumber => frame.0 as usize == next_number(entries),
        Condition::DropFirstOfQueue => is_first_item(first_queued(script, entries), request, item),
        _ => true,
    }
}
