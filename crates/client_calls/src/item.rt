//! An item of the queue as its turn comes, and the refusal of a full queue.
ghost use Rattle.std.specs.Prelude.{◌≡◌};
ghost use Rattle.client_calls.specs.Requests.{as_queued};

use cam_types::{Queued, WaitingItem};

/// What `push_list` answers where more than 256 items would wait.
#[derive(Clone, Copy, Debug, PartialEq, Eq)]
pub struct QueueFull;

/// An item that waited, now that its turn is.
pub(crate) fn as_queued(waiting: WaitingItem) -> Queued
    ensures { result ≡ as_queued waiting }
{
    Queued {
        request: waiting.request,
        index: waiting.index,
        item: waiting.item,
        repeating: false,
    }
}
