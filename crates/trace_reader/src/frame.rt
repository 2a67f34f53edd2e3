//! The lines of a frame's events, and those of fences.

ghost use Rattle.std.specs.Prelude.{◌≡◌};
ghost use Rattle.text_parts.specs.Words.{strict_words_behind};
ghost use Rattle.trace_reader.specs.Values.{sent};
ghost use Rattle.trace_reader.specs.Lines.{up_to_four, nothing, next_value, rest_of, send_of, drop_of, shutter_of, buffer_of, returned_buffer, no_fence, one_frame, error_buffer, filled_behind, failed_behind, error_of, release_of, signal_of, early_behind, early_of, late_of};

use crate::cause::Cause;
use crate::digest::digest;
use crate::number::{byte, large, small};
use crate::word::{both, fence, item, mark, numbered, sent};
use cam_types::{BufferId, DeviceFenceNo, FenceNo, Four, FrameNo, RequestId, StreamIx};
use text_parts::{has_text, next_strict_word, one_strict_word, two_strict_words};
use trace_model::{Entry, Sent};

/// A target, where there is one more word, and what stands behind it.
fn next_sent(rest: &[u8]) -> (Result<Option<Sent>, Cause>, &[u8])
    ensures value { result.0 ≡ next_value sent (strict_words_behind rest.now) }
    ensures rest { strict_words_behind result.1.now ≡ rest_of (strict_words_behind rest.now) }
{
    match next_strict_word(rest) {
        None => (Ok(None), rest),
        Some((word, rest)) => match sent(word) {
            Ok(sent) => (Ok(Some(sent)), rest),
            Err(cause) => (Err(cause), rest),
        },
    }
}

/// Up to four targets.
fn targets(rest: &[u8]) -> Result<Four<Sent>, Cause>
    ensures { result ≡ up_to_four (λ s. sent) (strict_words_behind rest.now) }
{
    let (a, rest) = next_sent(rest);
    let (b, rest) = next_sent(rest);
    let (c, rest) = next_sent(rest);
    let (d, rest) = next_sent(rest);
    if next_strict_word(rest).is_some() {
        return Err(Cause::BadLine);
    }
    let (a, (b, (c, d))) = both(a, both(b, both(c, d)))?;
    Ok(Four { a, b, c, d })
}

/// `N rR.I MARK ..` of a send.
#[tactic(auto, unfolding(crate::specs::Lines::send_of))]
pub fn send_of(rest: &[u8]) -> Result<Entry, Cause>
    ensures { result ≡ send_of (strict_words_behind rest.now) }
{
    let Some((number, rest)) = next_strict_word(rest) else {
        return Err(Cause::BadLine);
    };
    let Some((name, rest)) = next_strict_word(rest) else {
        return Err(Cause::BadLine);
    };
    let Some((sign, rest)) = next_strict_word(rest) else {
        return Err(Cause::BadLine);
    };
    let (frame, ((request, item), (same, targets))) = both(
        small(number),
        both(item(name), both(mark(sign), targets(rest))),
    )?;
    Ok(Entry::Send {
        frame: FrameNo(frame),
        request: RequestId(request),
        item,
        same,
        targets,
    })
}

/// `N rR.I` of a drop.
pub fn drop_of(rest: &[u8]) -> Result<Entry, Cause>
    ensures { result ≡ drop_of (strict_words_behind rest.now) }
{
    let Some((frame, name)) = two_strict_words(rest) else {
        return Err(Cause::BadLine);
    };
    let (frame, (request, item)) = both(small(frame), item(name))?;
    Ok(Entry::Dropped {
        frame: FrameNo(frame),
        request: RequestId(request),
        item,
    })
}

/// `N T` of a shutter.
pub fn shutter_of(rest: &[u8]) -> Result<Entry, Cause>
    ensures { result ≡ shutter_of (strict_words_behind rest.now) }
{
    let Some((frame, time)) = two_strict_words(rest) else {
        return Err(Cause::BadLine);
    };
    let (frame, time) = both(small(frame), large(time))?;
    Ok(Entry::Shutter {
        frame: FrameNo(frame),
        time,
    })
}

/// The place of a fence, where there is none.
fn no_fence(word: &[u8]) -> Result<Option<FenceNo>, Cause>
    ensures { result ≡ no_fence word.now }
{
    if has_text(word, "-") {
        Ok(None)
    } else {
        Err(Cause::BadLine)
    }
}

/// The frame, the stream and the buffer of a buffer that comes back.
fn returned_buffer(frame: &[u8], stream: &[u8], name: &[u8]) -> Result<(u32, u8, u32), Cause>
    ensures { result ≡ returned_buffer frame.now stream.now name.now }
{
    let (frame, (stream, buffer)) = both(small(frame), both(byte(stream), numbered(b'b', name)))?;
    Ok((frame, stream, buffer))
}

/// `- HEX` of a buffer that comes back with its picture.
fn filled_behind(place: Result<(u32, u8, u32), Cause>, rest: &[u8]) -> Result<Entry, Cause>
    ensures { result ≡ filled_behind place (strict_words_behind rest.now) }
{
    let Some((sign, hex)) = two_strict_words(rest) else {
        return Err(Cause::BadLine);
    };
    let ((frame, stream, buffer), (fence, digest)) = both(
        place,
        both(no_fence(sign), digest(hex)),
    )?;
    Ok(Entry::Filled {
        frame: FrameNo(frame),
        stream: StreamIx(stream),
        buffer: BufferId(buffer),
        fence,
        digest,
    })
}

/// `F` of a buffer that comes back in error.
fn failed_behind(place: Result<(u32, u8, u32), Cause>, rest: &[u8]) -> Result<Entry, Cause>
    ensures { result ≡ failed_behind place (strict_words_behind rest.now) }
{
    let Some(word) = one_strict_word(rest) else {
        return Err(Cause::BadLine);
    };
    let ((frame, stream, buffer), fence) = both(place, fence(word))?;
    Ok(Entry::Failed {
        frame: FrameNo(frame),
        stream: StreamIx(stream),
        buffer: BufferId(buffer),
        fence,
    })
}

/// `N S bB ..` of a buffer that comes back.
#[tactic(auto, unfolding(crate::specs::Lines::buffer_of))]
pub fn buffer_of(rest: &[u8]) -> Result<Entry, Cause>
    ensures { result ≡ buffer_of (strict_words_behind rest.now) }
{
    let Some((frame, rest)) = next_strict_word(rest) else {
        return Err(Cause::BadLine);
    };
    let Some((stream, rest)) = next_strict_word(rest) else {
        return Err(Cause::BadLine);
    };
    let Some((name, rest)) = next_strict_word(rest) else {
        return Err(Cause::BadLine);
    };
    let Some((how, rest)) = next_strict_word(rest) else {
        return Err(Cause::BadLine);
    };
    let place = returned_buffer(frame, stream, name);
    if has_text(how, "ok") {
        filled_behind(place, rest)
    } else if has_text(how, "error") {
        failed_behind(place, rest)
    } else {
        Err(Cause::BadLine)
    }
}

/// The number of a frame alone.
fn one_frame(rest: &[u8]) -> Result<FrameNo, Cause>
    ensures { result ≡ one_frame (strict_words_behind rest.now) }
{
    let Some(word) = one_strict_word(rest) else {
        return Err(Cause::BadLine);
    };
    Ok(FrameNo(small(word)?))
}

/// `N S` of an error of a buffer.
fn error_buffer(rest: &[u8]) -> Result<Entry, Cause>
    ensures { result ≡ error_buffer (strict_words_behind rest.now) }
{
    let Some((frame, stream)) = two_strict_words(rest) else {
        return Err(Cause::BadLine);
    };
    let (frame, stream) = both(small(frame), byte(stream))?;
    Ok(Entry::ErrorBuffer {
        frame: FrameNo(frame),
        stream: StreamIx(stream),
    })
}

/// An error of the device, which has no further words.
fn error_device(rest: &[u8]) -> Result<Entry, Cause>
    ensures { result ≡ nothing Entry.ErrorDevice (strict_words_behind rest.now) }
{
    match next_strict_word(rest) {
        None => Ok(Entry::ErrorDevice),
        Some(_) => Err(Cause::BadLine),
    }
}

/// An error, by its kind.
#[tactic(auto, unfolding(crate::specs::Lines::error_of))]
pub fn error_of(rest: &[u8]) -> Result<Entry, Cause>
    ensures { result ≡ error_of (strict_words_behind rest.now) }
{
    let Some((kind, rest)) = next_strict_word(rest) else {
        return Err(Cause::BadLine);
    };
    if has_text(kind, "request") {
        let frame = one_frame(rest)?;
        Ok(Entry::ErrorRequest { frame })
    } else if has_text(kind, "result") {
        let frame = one_frame(rest)?;
        Ok(Entry::ErrorResult { frame })
    } else if has_text(kind, "buffer") {
        error_buffer(rest)
    } else if has_text(kind, "device") {
        error_device(rest)
    } else {
        Err(Cause::BadLine)
    }
}

/// `bB fK` of a release.
pub fn release_of(rest: &[u8]) -> Result<Entry, Cause>
    ensures { result ≡ release_of (strict_words_behind rest.now) }
{
    let Some((name, fence)) = two_strict_words(rest) else {
        return Err(Cause::BadLine);
    };
    let (buffer, fence) = both(numbered(b'b', name), numbered(b'f', fence))?;
    Ok(Entry::Release {
        buffer: BufferId(buffer),
        fence: FenceNo(fence),
    })
}

/// `fK` of a signal.
pub fn signal_of(rest: &[u8]) -> Result<Entry, Cause>
    ensures { result ≡ signal_of (strict_words_behind rest.now) }
{
    let Some(word) = one_strict_word(rest) else {
        return Err(Cause::BadLine);
    };
    let fence = FenceNo(numbered(b'f', word)?);
    Ok(Entry::Signal { fence })
}

/// `dK` of a buffer that comes back before it is filled.
fn early_behind(place: Result<(u32, u8, u32), Cause>, rest: &[u8]) -> Result<Entry, Cause>
    ensures { result ≡ early_behind place (strict_words_behind rest.now) }
{
    let Some(word) = one_strict_word(rest) else {
        return Err(Cause::BadLine);
    };
    let ((frame, stream, buffer), fence) = both(place, numbered(b'd', word))?;
    Ok(Entry::Early {
        frame: FrameNo(frame),
        stream: StreamIx(stream),
        buffer: BufferId(buffer),
        fence: DeviceFenceNo(fence),
    })
}

/// `N S bB dK` of a buffer that comes back before it is filled.
#[tactic(auto, unfolding(crate::specs::Lines::early_of))]
pub fn early_of(rest: &[u8]) -> Result<Entry, Cause>
    ensures { result ≡ early_of (strict_words_behind rest.now) }
{
    let Some((frame, rest)) = next_strict_word(rest) else {
        return Err(Cause::BadLine);
    };
    let Some((stream, rest)) = next_strict_word(rest) else {
        return Err(Cause::BadLine);
    };
    let Some((name, rest)) = next_strict_word(rest) else {
        return Err(Cause::BadLine);
    };
    early_behind(returned_buffer(frame, stream, name), rest)
}

/// `dK HEX` of a picture that is filled after its buffer came back.
pub fn late_of(rest: &[u8]) -> Result<Entry, Cause>
    ensures { result ≡ late_of (strict_words_behind rest.now) }
{
    let Some((fence, hex)) = two_strict_words(rest) else {
        return Err(Cause::BadLine);
    };
    let (fence, digest) = both(numbered(b'd', fence), digest(hex))?;
    Ok(Entry::Late {
        fence: DeviceFenceNo(fence),
        digest,
    })
}
