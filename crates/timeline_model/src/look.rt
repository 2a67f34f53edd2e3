//! What is drawn: what a piece of a picture stands for. Its colour, its shape and its name follow from that.

use cam_types::Word;

/// A call of a framework, other than a request.
#[derive(Clone, Copy)]
pub enum HalCall {
    Open,
    Init,
    Template,
    Configure,
    Flush,
    Close,
}

/// What a piece stands for. Up to Late they are entries of a trace, from CallBegin on events of a hal log; shutters,
/// partial results, errors and buffers that come back belong to both.
#[derive(Clone, Copy)]
pub enum Look {
    /// A command of a script is begun.
    Begin,
    /// It is answered.
    Call { word: Word },
    Send,
    Dropped,
    /// An exposure begins, in nanoseconds.
    Shutter { time: u64 },
    Partial { number: u32 },
    /// A buffer comes back with its picture.
    Filled,
    /// A buffer comes back in error.
    Failed,
    ErrorRequest,
    ErrorResult,
    ErrorBuffer,
    ErrorDevice,
    Release,
    Signal,
    /// A buffer comes back before its picture is there.
    Early,
    /// The picture of such a one is there.
    Late,
    CallBegin { call: HalCall },
    CallOk { call: HalCall },
    CallError { call: HalCall },
    RequestBegin,
    RequestOk,
    RequestError,
    /// A buffer of a request that was refused.
    Refused,
    /// A buffer comes back with a status that is none.
    Unclear,
    /// A buffer that isn't back, or isn't filled, where the picture or the session ends.
    Unfinished,
}
