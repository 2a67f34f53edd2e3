//! Whether a send is allowed after the entries before it.
ghost use Rattle.std.specs.Prelude.{◌≡◌, ◌↔◌, ◌==◌, ◌&&◌, Some, reverse, IsTrue};
ghost use Rattle.trace_model.specs.Allowed.{IsAllowed};
ghost use Rattle.trace_model.specs.Numbers.{next_number};
ghost use Rattle.trace_model.specs.Send.{has_capacity, is_same_bool, mark_of, may_go, targets_in_order};
ghost use Rattle.judge_rules.specs.Asked.{asks, fit, left_from};

use crate::ahead::may_repeat;
use crate::mark::{is_same_mark, mark_of};
use crate::stream::has_room;
use crate::target::fit_item;
use cam_types::{Four, FrameNo, Queued, RequestId, Script, Targets};
use judge_entries::number::next_number;
use judge_filters::next::next_item;
use judge_filters::open::open_count;
use judge_filters::stopping::is_stopping;
use trace_model::{Entry, Sent};

/// Whether the next item, under the next number, has this frame, request and place.
fn is_named(entries: &[Entry], next: Queued, frame: FrameNo, request: RequestId, item: u32) -> bool
    ensures { result ≡
        ((frame.0 == next_number (reverse entries.now)) && ((request.0 == next.request.0) && (item == next.index))) }
{
    frame.0 as usize == next_number(entries) && (request.0 == next.request.0 && item == next.index)
}

/// Whether the device takes a further frame for the streams that are asked for.
fn has_capacity(script: &Script, entries: &[Entry], asked: Targets) -> bool
    ensures { result ≡ has_capacity script.now (reverse entries.now) (left_from (asks asked) 0) }
{
    open_count(entries) < script.profile.depth as usize && has_room(script, entries, asked)
}

/// Whether nothing stands against sending the next item now, whatever buffers it takes.
pub fn may_go(script: &Script, entries: &[Entry], next: Queued) -> bool
    ensures { result ≡ may_go script.now (reverse entries.now) next }
{
    !is_stopping(entries)
        && (has_capacity(script, entries, next.item.targets)
            && (!next.repeating || may_repeat(script, entries)))
}

/// Whether the next item may be sent now, with the mark and the targets.
fn may_send(
    script: &Script,
    entries: &[Entry],
    next: Queued,
    same: bool,
    targets: Four<Sent>,
) -> bool
    ensures { let past = reverse entries.now in
        let marked = is_same_bool same (mark_of script.now past next.item.settings) in
        result ≡ (may_go script.now past next && (fit past targets (targets_in_order next.item) && marked)) }
{
    may_go(script, entries, next)
        && (fit_item(entries, targets, next.item.targets)
            && is_same_mark(same, mark_of(script, entries, next.item.settings)))
}

/// Whether the send of the item under the number is due, with the mark and the targets.
pub fn is_send_due(
    script: &Script,
    entries: &[Entry],
    frame: FrameNo,
    request: RequestId,
    item: u32,
    same: bool,
    targets: Four<Sent>,
) -> bool
    ensures { IsTrue result ↔ IsAllowed script.now (reverse entries.now) (Entry.Send frame request item same targets) }
{
    match next_item(script, entries) {
        Some(next) => is_named(entries, next, frame, request, item)
            && may_send(script, entries, next, same, targets),
        None => false,
    }
}
