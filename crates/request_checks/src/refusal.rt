//! Why a configuration is refused.
ghost use Rattle.std.specs.Prelude.{◌≡◌, ◌==◌, ◌&&◌, ◌^◌, ◌<◌, ◌≤◌, length, not, count_by, IfSome, IfNone};
ghost use Rattle.std.specs.List.{list_any, position_from};
ghost use Rattle.std.specs.Option.{option_map};
ghost use Rattle.cam_types.specs.Picture.{is_size_of};
ghost use Rattle.cam_types.specs.Refusals.{is_raw, is_yuv, specs_refusal};
ghost use Rattle.request_checks.specs.Refused.{as_reply};

use crate::offered::is_offered;
use cam_types::{
    BAD_FORMAT, BAD_SIZE, Format, INPUT_STREAM, NO_OUTPUT, RAW_STREAMS, Reply, STREAM_LIMIT,
    StreamSpec, TOO_MANY, TOO_MANY_RAW, TOO_MANY_YUV, YUV_STREAMS,
};

/// Why a configuration is refused: the refusal's number, and the place of the stream that it speaks of, counted
/// from 0. The numbers are 21 no output stream, 22 more than 4 streams, 23 an input stream, 24 a format that isn't
/// offered, 25 a size that isn't one of its format, 26 more than one RAW16 stream and 27 more than three YUV streams;
/// 24 and 25 name the first such stream, the others none.
#[derive(Clone, Copy, Debug, PartialEq, Eq)]
pub struct ConfigRefused {
    pub code: u8,
    pub stream: Option<u32>,
}

impl ConfigRefused {
    /// The reply that the refusal is: its stream is the first number.
    pub fn reply(self) -> Reply
        ensures { result ≡ as_reply self }
    {
        Reply::Refused {
            code: self.code,
            first: self.stream,
            second: None,
        }
    }
}

/// The first refusal whose condition holds.
pub(crate) fn first_refusal(specs: &[StreamSpec]) -> Option<ConfigRefused>
    requires { length specs.now < 2 ^ 32 }
    ensures value { option_map as_reply result ≡ specs_refusal specs.now }
    ensures few { IfNone result (length specs.now ≤ STREAM_LIMIT) }
{
    if !has_output(specs) {
        return Some(refused(NO_OUTPUT));
    }
    if specs.len() > STREAM_LIMIT as usize {
        return Some(refused(TOO_MANY));
    }
    if has_input(specs) {
        return Some(refused(INPUT_STREAM));
    }
    if let Some(place) = first_bad_format(specs) {
        return Some(refused_at(BAD_FORMAT, place));
    }
    if let Some(place) = first_bad_size(specs) {
        return Some(refused_at(BAD_SIZE, place));
    }
    if raw_count(specs) > RAW_STREAMS {
        return Some(refused(TOO_MANY_RAW));
    }
    if yuv_count(specs) > YUV_STREAMS {
        return Some(refused(TOO_MANY_YUV));
    }
    None
}

fn refused(code: u8) -> ConfigRefused
    ensures { result ≡ record { code = code; stream = None } }
{
    ConfigRefused { code, stream: None }
}

fn refused_at(code: u8, place: usize) -> ConfigRefused
    requires { place < 2 ^ 32 }
    ensures { result ≡ record { code = code; stream = Some place } }
{
    ConfigRefused {
        code,
        stream: Some(place as u32),
    }
}

fn has_output(specs: &[StreamSpec]) -> bool
    ensures { result ≡ list_any (λ s. not s.input) specs.now }
{
    specs.iter().any(|spec| !spec.input)
}

fn has_input(specs: &[StreamSpec]) -> bool
    ensures { result ≡ list_any (λ s. s.input) specs.now }
{
    specs.iter().any(|spec| spec.input)
}

fn first_bad_format(specs: &[StreamSpec]) -> Option<usize>
    ensures within { IfSome result (λ i. i < length specs.now) }
    ensures value { result ≡ position_from (λ s. not (is_raw s.format) && not (is_yuv s.format)) 0 specs.now }
{
    specs.iter().position(|spec| spec.format != Format::Raw16 && spec.format != Format::Yuv)
}

fn first_bad_size(specs: &[StreamSpec]) -> Option<usize>
    ensures within { IfSome result (λ i. i < length specs.now) }
    ensures value { result ≡ position_from (λ s. not (is_size_of s.format s.width s.height)) 0 specs.now }
{
    specs.iter().position(|spec| !is_offered(*spec))
}

fn raw_count(specs: &[StreamSpec]) -> usize
    ensures { result ≡ count_by (λ s. is_raw s.format) specs.now }
{
    specs
        .iter()
        .filter(|spec| spec.format == Format::Raw16)
        .count()
}

fn yuv_count(specs: &[StreamSpec]) -> usize
    ensures { result ≡ count_by (λ s. is_yuv s.format) specs.now }
{
    specs
        .iter()
        .filter(|spec| spec.format == Format::Yuv)
        .count()
}
