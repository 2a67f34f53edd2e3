//! The newest event that a clue means.
ghost use Rattle.std.specs.Prelude.{◌≡◌, reverse, take};
ghost use Rattle.std.specs.Option.{option_map};
ghost use Rattle.hal_text.specs.Person.{before, begin_of, call_place, clue_place, newest, newest_by, request_place};

use crate::HalLog;
use crate::clue::{Clue, SessionClue, begin_clue, clue_of, is_call_of_request};
use crate::meant::{is_limit, is_meant};
use hal_model::{Breach, HalEvent};

/// The place of the newest event that the clue means, if one stands before one that limits it. The events are the
/// oldest first.
fn newest(clue: Clue, events: &[HalEvent]) -> Option<usize>
    ensures { result ≡ newest clue (reverse events.now) }
{
    let mut rest = events;
    while let [front @ .., event] = rest {
        if is_meant(clue, event) {
            return Some(front.len());
        }
        if is_limit(clue, event) {
            return None;
        }
        rest = front;
    }
    None
}

/// So many items at the front, or all.
pub fn front<T>(items: &[T], count: usize) -> &[T]
    ensures { result.now ≡ take count items.now }
{
    if count < items.len() {
        &items[..count]
    } else {
        items
    }
}

/// Of the newest event that the clue means, before a place.
fn newest_before(clue: Option<Clue>, log: &HalLog, place: u32) -> Option<usize>
    ensures { result ≡ newest_by clue (before log.now place) }
{
    match clue {
        Some(clue) => newest(clue, front(log.events.as_slice(), place as usize)),
        None => None,
    }
}

/// The begin of a request.
fn begin_of(frame: u32) -> Clue
    ensures { result ≡ begin_of frame }
{
    Clue::Session(SessionClue::RequestBegin(frame))
}

/// Where a request begins, seen from the log's end.
pub fn last_begin(frame: u32, log: &HalLog) -> Option<usize>
    ensures { result ≡ newest (begin_of frame) (reverse log.now.events) }
{
    newest(begin_of(frame), log.events.as_slice())
}

/// Where the request begins that the breach is about, unless the event is of a call of it.
pub fn request_place(log: &HalLog, breach: &Breach, event: &HalEvent) -> Option<usize>
    ensures { result ≡ request_place log.now breach.now event.now }
{
    if is_call_of_request(event) {
        return None;
    }
    match breach.frame {
        Some(frame) => newest_before(Some(begin_of(frame)), log, breach.line),
        None => None,
    }
}

/// What else the breach refers to.
pub fn clue_place(log: &HalLog, breach: &Breach, event: &HalEvent) -> Option<usize>
    ensures { result ≡ clue_place log.now breach.now event.now }
{
    newest_before(clue_of(breach, event), log, breach.line)
}

/// Where the call begins that the event at the place ends.
pub fn call_place(log: &HalLog, place: u32, event: &HalEvent) -> Option<usize>
    ensures { result ≡ call_place log.now place event.now }
{
    newest_before(begin_clue(event), log, place)
}
