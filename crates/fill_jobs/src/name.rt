//! What a player has to know of a job to take it.
use cam_types::{FrameNo, StreamIx};

/// The frame of a job and, where the job is a fill, the stream whose buffer it fills.
#[derive(Clone, Copy, PartialEq, Eq)]
pub struct JobName {
    pub frame: FrameNo,
    pub stream: Option<StreamIx>,
}
