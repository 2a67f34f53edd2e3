//! An entry that is allowed.
ghost use Rattle.std.specs.Prelude.{◌≡◌};
ghost use Rattle.allowed_entries.specs.Known.{known_of};

use cam_types::{BufferId, DeviceFenceNo, FrameNo, RequestId, StreamIx};
use trace_model::Entry;

/// An entry that is allowed, as far as the past determines it, without what nobody can be asked to read.
#[derive(Clone, Copy)]
pub enum AllowedEntry {
    /// All of it.
    Whole(Entry),
    /// A send. Which buffers of the pool it takes is free.
    Send {
        frame: FrameNo,
        request: RequestId,
        item: u32,
        same: bool,
    },
    /// A buffer that comes back with its picture, without the digest.
    Filled {
        frame: FrameNo,
        stream: StreamIx,
        buffer: BufferId,
    },
    /// The signal of a device fence, without the digest.
    Late {
        fence: DeviceFenceNo,
    },
}

/// What is told of an entry.
pub fn known_of(entry: Entry) -> AllowedEntry
    ensures { result ≡ known_of entry }
{
    match entry {
        Entry::Send {
            frame,
            request,
            item,
            same,
            targets: _,
        } => AllowedEntry::Send {
            frame,
            request,
            item,
            same,
        },
        Entry::Filled {
            frame,
            stream,
            buffer,
            fence: _,
            digest: _,
        } => AllowedEntry::Filled {
            frame,
            stream,
            buffer,
        },
        Entry::Late { fence, digest: _ } => AllowedEntry::Late { fence },
        _ => AllowedEntry::Whole(entry),
    }
}
