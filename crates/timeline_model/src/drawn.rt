//! What is drawn.

use crate::{Seat, Series};
use cam_types::Listing;
use trace_model::Entry;

/// What is drawn of an entry at its place.
#[derive(Clone, Copy)]
pub struct Drawn {
    /// How many entries stand before it.
    pub place: u32,
    pub entry: Entry,
    /// The place where what it ends began: of a call the begin, of a buffer that comes back the send, of a picture that
    /// is filled late the early return.
    pub since: Option<u32>,
    /// The row of the bar of the target that it speaks of.
    pub seat: Option<Seat>,
    /// How many items wait in the queue after it.
    pub queued: u64,
    /// After it a flush, a disconnect or a failure of the device stops frames.
    pub stopping: bool,
}

/// What is drawn of a legal trace.
#[derive(Drop)]
pub struct Timeline {
    /// How many frames may be open, which is how many rows a stream's lane has.
    pub depth: u32,
    /// How many lanes of streams there are: as many as the largest accepted configuration has.
    pub streams: u32,
    /// One for each entry.
    pub drawn: Listing<Drawn>,
    /// The rows of the buffers that the device isn't done with at the end.
    pub unfinished: Series<Seat>,
}
