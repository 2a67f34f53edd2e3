//! The lines of callbacks.

ghost use Rattle.std.specs.Prelude.{◌≡◌, IfOk, IsTrue};
ghost use Rattle.text_parts.specs.Words.{loose_words};
ghost use Rattle.hal_model.specs.Fits.{is_well_made};
ghost use Rattle.hal_lines.specs.Lines.{notice_in, notice_of, result_of, result_with, shutter_of};
ghost use Rattle.hal_lines.specs.Reader.{Gives};

use crate::cause::{Cause, LineRefused};
use crate::list::{input_of, list_of};
use crate::value::{both, large, pack_of, small};
use crate::word::buffer_of;
use hal_model::HalEvent;
use std::alloc::Global;
use text_parts::{has_text, is_end, next_loose_word};

/// The line of a shutter.
pub fn shutter_of(words: &[u8]) -> Result<HalEvent, Cause>
    ensures value { result ≡ shutter_of (loose_words words.now) }
    ensures valid { IfOk result (λ event. IsTrue (is_well_made event)) }
{
    let Some((frame, rest)) = next_loose_word(words) else {
        return Err(Cause::BadLine);
    };
    let Some((time, rest)) = next_loose_word(rest) else {
        return Err(Cause::BadLine);
    };
    if !is_end(rest) {
        return Err(Cause::BadLine);
    }
    let (frame, time) = both(small(frame), large(time))?;
    Ok(HalEvent::Shutter { frame, time })
}

/// An error of a frame.
fn notice_in(frame: &[u8], what: &[u8]) -> Result<HalEvent, Cause>
    ensures value { result ≡ notice_in frame.now what.now }
    ensures valid { IfOk result (λ event. IsTrue (is_well_made event)) }
{
    if has_text(what, "request") {
        let frame = small(frame)?;
        Ok(HalEvent::ErrorRequest { frame })
    } else if has_text(what, "result") {
        let frame = small(frame)?;
        Ok(HalEvent::ErrorResult { frame })
    } else {
        let (frame, stream) = both(small(frame), buffer_of(what))?;
        Ok(HalEvent::ErrorBuffer { frame, stream })
    }
}

/// The line of an error.
#[tactic(auto, unfolding(crate::specs::Lines::notice_of))]
pub fn notice_of(words: &[u8]) -> Result<HalEvent, Cause>
    ensures value { result ≡ notice_of (loose_words words.now) }
    ensures valid { IfOk result (λ event. IsTrue (is_well_made event)) }
{
    let Some((frame, rest)) = next_loose_word(words) else {
        return Err(Cause::BadLine);
    };
    let Some((what, rest)) = next_loose_word(rest) else {
        return if has_text(frame, "device") {
            Ok(HalEvent::ErrorDevice)
        } else {
            Err(Cause::BadLine)
        };
    };
    if is_end(rest) {
        notice_in(frame, what)
    } else {
        Err(Cause::BadLine)
    }
}

/// A result, by its numbers, its metadata, and what stands behind these.
fn result_with(
    alloc: Global,
    numbers: Result<(u32, u32), Cause>,
    pack: &[u8],
    words: &[u8],
) -> Result<HalEvent, LineRefused>
    ensures value { Gives result (result_with numbers pack.now (loose_words words.now)) }
    ensures valid { IfOk result (λ event. IsTrue (is_well_made event)) }
{
    let (buffers, rest) = list_of(alloc, words)?;
    let fields = both(numbers, both(pack_of(pack), both(buffers, input_of(rest))));
    match fields {
        Ok(((frame, partial), (pack, (buffers, input)))) => Ok(HalEvent::Results {
            frame,
            partial,
            pack,
            buffers,
            input,
        }),
        Err(cause) => Err(LineRefused::Bad(cause)),
    }
}

/// The line of a result.
#[tactic(auto, unfolding(crate::specs::Lines::result_of))]
pub fn result_of(alloc: Global, words: &[u8]) -> Result<HalEvent, LineRefused>
    ensures value { Gives result (result_of (loose_words words.now)) }
    ensures valid { IfOk result (λ event. IsTrue (is_well_made event)) }
{
    let Some((frame, rest)) = next_loose_word(words) else {
        return Err(LineRefused::Bad(Cause::BadLine));
    };
    let Some((sign, rest)) = next_loose_word(rest) else {
        return Err(LineRefused::Bad(Cause::BadLine));
    };
    let Some((partial, rest)) = next_loose_word(rest) else {
        return Err(LineRefused::Bad(Cause::BadLine));
    };
    let Some((pack, rest)) = next_loose_word(rest) else {
        return Err(LineRefused::Bad(Cause::BadLine));
    };
    if has_text(sign, "partial") {
        result_with(alloc, both(small(frame), small(partial)), pack, rest)
    } else {
        Err(LineRefused::Bad(Cause::BadLine))
    }
}
