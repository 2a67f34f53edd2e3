//! The steps that a reprocessing device can make.

use cam_types::{FrameNo, StreamIx};

/// A step, by its kind and by the request and the output that it is of. The kinds stand in the order in which
/// candidates are listed.
#[derive(Clone, Copy)]
pub enum ReStepName {
    /// The least request that waits is taken.
    TakeNext,
    /// The client's next command is called, begins or is answered.
    Client,
    /// The least request that waits is dropped.
    DropNext,
    /// A request has its error.
    Fail(FrameNo),
    /// An output buffer comes back with nothing in it.
    ReturnFailed(FrameNo, StreamIx),
    /// An output buffer comes back with its picture.
    ReturnFilled(FrameNo, StreamIx),
    /// An input buffer comes back.
    ReturnInput(FrameNo),
}
