//! What is wanted of a run.
use cam_types::{FrameNo, StreamIx};

/// What is wanted of a run.
#[derive(Clone, Copy)]
pub enum Wanted {
    /// The pictures of all good buffers of a stream, as one film.
    Film { stream: StreamIx },
    /// The picture of a frame for a stream.
    Picture { frame: FrameNo, stream: StreamIx },
}
