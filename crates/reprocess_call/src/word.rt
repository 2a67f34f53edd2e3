//! What a word means: sizes, requests and numbers.
ghost use Rattle.std.specs.Prelude.{◌≡◌, IfOk, IfSome, IsTrue, None};
ghost use Rattle.cam_types.specs.Metadata.{range_fault as range_fault_of};
ghost use Rattle.reprocess_model.specs.Plan.{is_output, is_yuv};
ghost use Rattle.text_parts.specs.Values.{four_numbers};
ghost use Rattle.text_parts.specs.LineWords.{one};
ghost use Rattle.text_parts.specs.Words.{loose_words};
ghost use Rattle.reprocess_call.specs.Grammar.{output_of as output_by, request_of as request_by, size_of as size_by, yuv as yuv_stream};

use cam_types::{Format, Settings, StreamSpec};
use metadata::range_fault;
use text_parts::{Cause, four_numbers, is_end, next_loose_word};

/// A YUV stream.
fn yuv(width: u32, height: u32) -> StreamSpec
    ensures { result ≡ yuv_stream width height }
{
    StreamSpec {
        input: false,
        format: Format::Yuv,
        width,
        height,
    }
}

/// One of the three sizes.
#[tactic(auto, unfolding(crate::specs::Grammar::size_of))]
fn size_of(word: &[u8]) -> Option<StreamSpec>
    ensures value { result ≡ size_by word.now }
    ensures yuv { IfSome result (λ spec. IsTrue (is_yuv spec)) }
{
    if word == b"yuv:160x120".as_slice() {
        Some(yuv(160, 120))
    } else if word == b"yuv:80x60".as_slice() {
        Some(yuv(80, 60))
    } else if word == b"yuv:40x30".as_slice() {
        Some(yuv(40, 30))
    } else {
        None
    }
}

/// A size that isn't larger than that of the input.
fn output_of(input: StreamSpec, word: &[u8]) -> Option<StreamSpec>
    ensures value { result ≡ output_by input word.now }
    ensures fits { IfSome result (λ spec. IsTrue (is_output input spec)) }
{
    let spec = size_of(word)?;
    if spec.width <= input.width {
        Some(spec)
    } else {
        None
    }
}

/// The settings of a request, in range.
fn request_of(word: &[u8]) -> Option<Settings>
    ensures value { result ≡ request_by word.now }
    ensures fits { IfSome result (λ settings. range_fault_of settings ≡ None) }
{
    let settings = four_numbers(word)?;
    if range_fault(settings).is_none() {
        Some(settings)
    } else {
        None
    }
}

/// One size, and no more.
pub fn one_size(words: &[u8]) -> Result<StreamSpec, Cause>
    ensures value { result ≡ one size_by (loose_words words.now) }
    ensures yuv { IfOk result (λ spec. IsTrue (is_yuv spec)) }
{
    let (word, rest) = next_loose_word(words).ok_or(Cause::Missing)?;
    let size = size_of(word).ok_or(Cause::BadNumber)?;
    if is_end(rest) {
        Ok(size)
    } else {
        Err(Cause::Extra)
    }
}

/// One size that isn't larger than that of the input, and no more.
pub fn one_output(input: StreamSpec, words: &[u8]) -> Result<StreamSpec, Cause>
    ensures value { result ≡ one (output_by input) (loose_words words.now) }
    ensures fits { IfOk result (λ spec. IsTrue (is_output input spec)) }
{
    let (word, rest) = next_loose_word(words).ok_or(Cause::Missing)?;
    let size = output_of(input, word).ok_or(Cause::BadNumber)?;
    if is_end(rest) {
        Ok(size)
    } else {
        Err(Cause::Extra)
    }
}

/// One request, and no more.
pub fn one_request(words: &[u8]) -> Result<Settings, Cause>
    ensures value { result ≡ one request_by (loose_words words.now) }
    ensures fits { IfOk result (λ settings. range_fault_of settings ≡ None) }
{
    let (word, rest) = next_loose_word(words).ok_or(Cause::Missing)?;
    let settings = request_of(word).ok_or(Cause::BadNumber)?;
    if is_end(rest) {
        Ok(settings)
    } else {
        Err(Cause::Extra)
    }
}
