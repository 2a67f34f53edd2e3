//! The lines of a trace as values.

use cam_types::{
    BufferId, DeviceFenceNo, FenceNo, Four, FrameNo, PartialResult, Reply, RequestId, StreamIx,
    Word,
};

/// A buffer that a frame is sent with: for which stream, and with which acquire fence.
#[derive(Clone, Copy, Debug, PartialEq, Eq)]
pub struct Sent {
    pub stream: StreamIx,
    pub buffer: BufferId,
    pub fence: Option<FenceNo>,
}

/// One line of a trace: what the client, the service or the device did.
#[derive(Clone, Copy, Debug, PartialEq, Eq)]
pub enum Entry {
    /// A waiting command begins.
    Begin {
        word: Word,
    },
    /// A command is answered.
    Call {
        index: u32,
        word: Word,
        reply: Reply,
    },
    /// An item is sent to the device as a frame; `same` says that its settings are those of the frame before.
    Send {
        frame: FrameNo,
        request: RequestId,
        item: u32,
        same: bool,
        targets: Four<Sent>,
    },
    /// A queued item is dropped under a frame number.
    Dropped {
        frame: FrameNo,
        request: RequestId,
        item: u32,
    },
    /// The exposure of a frame begins, in nanoseconds.
    Shutter {
        frame: FrameNo,
        time: u64,
    },
    /// A partial result, 1 to 3.
    Partial {
        frame: FrameNo,
        number: u8,
        part: PartialResult,
    },
    /// A buffer comes back with its picture, whose SHA-256 is the digest.
    Filled {
        frame: FrameNo,
        stream: StreamIx,
        buffer: BufferId,
        fence: Option<FenceNo>,
        digest: [u8; 32],
    },
    /// A buffer comes back in error; the fence is the one to wait for before it is used again.
    Failed {
        frame: FrameNo,
        stream: StreamIx,
        buffer: BufferId,
        fence: Option<FenceNo>,
    },
    /// The capture failed whole.
    ErrorRequest {
        frame: FrameNo,
    },
    /// Metadata of the frame is missing.
    ErrorResult {
        frame: FrameNo,
    },
    /// A buffer of the frame won't be filled.
    ErrorBuffer {
        frame: FrameNo,
        stream: StreamIx,
    },
    /// The device failed.
    ErrorDevice,
    /// The client gives a buffer back, with a fence that it will signal.
    Release {
        buffer: BufferId,
        fence: FenceNo,
    },
    /// The client signals a fence.
    Signal {
        fence: FenceNo,
    },
    /// A buffer comes back before it is filled, with a device fence that the device will signal.
    Early {
        frame: FrameNo,
        stream: StreamIx,
        buffer: BufferId,
        fence: DeviceFenceNo,
    },
    /// The device signals a device fence: the buffer has its picture, whose SHA-256 is the digest.
    Late {
        fence: DeviceFenceNo,
        digest: [u8; 32],
    },
}
