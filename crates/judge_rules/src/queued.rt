//! Which queued item a drop names.
ghost use Rattle.std.specs.Prelude.{◌≡◌, reverse};
ghost use Rattle.judge_rules.specs.Rules.{is_named};

use cam_types::{FrameNo, RequestId, WaitingItem};
use judge_entries::number::next_number;
use trace_model::Entry;

/// Whether the drop of the item, under the next number, has this frame, request and place.
pub(crate) fn is_named(
    entries: &[Entry],
    waiting: Option<WaitingItem>,
    frame: FrameNo,
    request: RequestId,
    item: u32,
) -> bool
    ensures { result ≡ is_named (reverse entries.now) waiting frame.0 request.0 item }
{
    match waiting {
        Some(waiting) => next_number(entries) == frame.0 as usize
            && (waiting.request.0 == request.0 && waiting.index == item),
        None => false,
    }
}
