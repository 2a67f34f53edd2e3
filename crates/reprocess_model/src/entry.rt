//! The lines of a reprocessing run as values.

use cam_types::{BufferId, Four, FrameNo, StreamIx};

/// The number of an input buffer, from 0 on: there are three.
#[derive(Clone, Copy, PartialEq, Eq)]
pub struct InputId(pub u32);

/// The buffer that a request has for an output.
#[derive(Clone, Copy)]
pub struct ReOut {
    pub stream: StreamIx,
    pub buffer: BufferId,
}

/// One line of a run. Requests are numbered from 0 on, as they are called; `frame` is a request's number.
#[derive(Clone, Copy)]
pub enum ReEntry {
    /// The command at this place, from 0 on, is called and waits: it is a request.
    Called {
        index: u32,
    },
    /// A flush begins.
    BeginFlush,
    /// The flush at this place is answered.
    Flushed {
        index: u32,
    },
    /// The device takes a request, with an input buffer and a buffer for each output.
    Take {
        frame: FrameNo,
        input: InputId,
        outputs: Four<ReOut>,
    },
    /// A request that waits is dropped.
    Dropped {
        frame: FrameNo,
    },
    /// Nothing is made of the request's input.
    Error {
        frame: FrameNo,
    },
    /// An output buffer comes back with nothing in it.
    Failed {
        frame: FrameNo,
        stream: StreamIx,
        buffer: BufferId,
    },
    /// An output buffer comes back with its picture, whose SHA-256 is the digest.
    Fill {
        frame: FrameNo,
        stream: StreamIx,
        buffer: BufferId,
        digest: [u8; 32],
    },
    /// The input buffer comes back.
    Input {
        frame: FrameNo,
        input: InputId,
    },
}
