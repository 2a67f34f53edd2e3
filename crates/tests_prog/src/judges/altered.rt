//! An entry with one of its parts altered.

use cam_types::{BufferId, FenceNo, Four, PartialResult, Reply, RequestId, Word};
use trace_model::{Entry, Sent};

/// The most alterations of an entry: an entry has at most so many parts.
pub const ALTERATIONS: u8 = 5;

/// The word behind a command's word.
fn next_word(word: Word) -> Word {
    match word {
        Word::Configure => Word::Once,
        Word::Once => Word::Burst,
        Word::Burst => Word::Repeat,
        Word::Repeat => Word::Stop,
        Word::Stop => Word::Wait,
        Word::Wait => Word::Await,
        Word::Await => Word::Flush,
        Word::Flush => Word::Close,
        Word::Close => Word::Disconnect,
        Word::Disconnect => Word::Configure,
    }
}

/// The number behind a number.
fn next(number: u32) -> u32 {
    number.wrapping_add(1)
}

/// The next fence, or the first where there is none.
fn other_fence(fence: Option<FenceNo>) -> Option<FenceNo> {
    match fence {
        Some(fence) => Some(FenceNo(next(fence.0))),
        None => Some(FenceNo(0)),
    }
}

fn other_digest(digest: [u8; 32]) -> [u8; 32] {
    let mut other = digest;
    other[31] ^= 1;
    other
}

fn other_part(part: PartialResult) -> PartialResult {
    match part {
        PartialResult::Look { pattern, level } => PartialResult::Look {
            pattern,
            level: level.wrapping_add(1),
        },
        PartialResult::Light { exposure, iso } => PartialResult::Light {
            exposure,
            iso: iso.wrapping_add(1),
        },
        PartialResult::Time { timestamp } => PartialResult::Time {
            timestamp: timestamp.wrapping_add(1),
        },
    }
}

fn other_reply(reply: Reply) -> Reply {
    match reply {
        Reply::Ok => Reply::Submitted(RequestId(0)),
        Reply::Submitted(request) => Reply::Submitted(RequestId(next(request.0))),
        Reply::Configured(_) => Reply::Ok,
        Reply::Refused {
            code,
            first,
            second,
        } => Reply::Refused {
            code: code.wrapping_add(1),
            first,
            second,
        },
    }
}

/// The targets without that of the first stream, or with its next buffer where it is the only one.
fn other_targets(targets: Four<Sent>) -> Four<Sent> {
    let Four { a, b, c, d } = targets;
    match (a, b) {
        (Some(sent), None) => Four {
            a: Some(Sent {
                stream: sent.stream,
                buffer: BufferId(next(sent.buffer.0)),
                fence: sent.fence,
            }),
            b,
            c,
            d,
        },
        _ => Four { a: None, b, c, d },
    }
}

/// The entry with its part of this number altered, counted from 0. None where it has fewer parts.
pub fn altered(entry: Entry, number: u8) -> Option<Entry> {
    let mut other = entry;
    match (&mut other, number) {
        (Entry::Begin { word } | Entry::Call { word, .. }, 0) => *word = next_word(*word),
        (Entry::Call { index, .. }, 1) => *index = next(*index),
        (Entry::Call { reply, .. }, 2) => *reply = other_reply(*reply),
        (Entry::Send { same, .. }, 3) => *same = !*same,
        (Entry::Send { targets, .. }, 4) => *targets = other_targets(*targets),
        (Entry::Send { request, .. } | Entry::Dropped { request, .. }, 1) => {
            request.0 = next(request.0);
        }
        (Entry::Send { item, .. } | Entry::Dropped { item, .. }, 2) => *item = next(*item),
        (Entry::Shutter { time, .. }, 1) => *time = time.wrapping_add(1),
        (Entry::Partial { number, .. }, 1) => *number = number.wrapping_add(1),
        (Entry::Partial { part, .. }, 2) => *part = other_part(*part),
        _ => return altered_buffer(entry, number),
    }
    Some(other)
}

/// The entry with its part of this number altered, where the part is its frame, or a part of what happened to a buffer.
fn altered_buffer(entry: Entry, number: u8) -> Option<Entry> {
    let mut other = entry;
    match (&mut other, number) {
        (
            Entry::Send { frame, .. }
            | Entry::Dropped { frame, .. }
            | Entry::Shutter { frame, .. }
            | Entry::Partial { frame, .. }
            | Entry::Filled { frame, .. }
            | Entry::Failed { frame, .. }
            | Entry::ErrorRequest { frame }
            | Entry::ErrorResult { frame }
            | Entry::ErrorBuffer { frame, .. }
            | Entry::Early { frame, .. },
            0,
        ) => frame.0 = next(frame.0),
        (
            Entry::Filled { stream, .. }
            | Entry::Failed { stream, .. }
            | Entry::ErrorBuffer { stream, .. }
            | Entry::Early { stream, .. },
            1,
        ) => stream.0 = stream.0.wrapping_add(1),
        (
            Entry::Filled { buffer, .. }
            | Entry::Failed { buffer, .. }
            | Entry::Early { buffer, .. },
            2,
        )
        | (Entry::Release { buffer, .. }, 0) => buffer.0 = next(buffer.0),
        (Entry::Filled { fence, .. } | Entry::Failed { fence, .. }, 3) => {
            *fence = other_fence(*fence);
        }
        (Entry::Release { fence, .. }, 1) | (Entry::Signal { fence }, 0) => {
            fence.0 = next(fence.0);
        }
        (Entry::Early { fence, .. }, 3) | (Entry::Late { fence, .. }, 0) => {
            fence.0 = next(fence.0);
        }
        (Entry::Filled { digest, .. }, 4) | (Entry::Late { digest, .. }, 1) => {
            *digest = other_digest(*digest);
        }
        _ => return None,
    }
    Some(other)
}
