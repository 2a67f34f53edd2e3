//! The replies of the service to calls.
use crate::four::Four;
use crate::number::{BufferId, RequestId};

/// The buffers that a configuration makes for one stream: `count` of them, numbered from `first` on.
#[derive(Clone, Copy, Debug, PartialEq, Eq)]
pub struct Made {
    pub first: BufferId,
    pub count: u32,
}

/// The service's reply to a call.
#[derive(Clone, Copy, Debug, PartialEq, Eq)]
pub enum Reply {
    /// Accepted.
    Ok,
    /// An accepted `once`, `burst` or `repeat`.
    Submitted(RequestId),
    /// An accepted `configure`, with the buffers of each stream.
    Configured(Four<Made>),
    /// Refused: the number of the refusal, and the numbers that it carries.
    Refused {
        code: u8,
        first: Option<u32>,
        second: Option<u32>,
    },
}
