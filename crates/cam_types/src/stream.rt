//! Streams as a client asks for them.
ghost use Rattle.std.specs.Prelude.{◌≡◌, ℕ, ◌↔◌, length, IsSome, IfSome, IsTrue};
ghost use Rattle.cam_types.specs.Picture.{frame_length, is_offered, picture};
ghost use Rattle.cam_types.specs.declared.item.Settings.{Settings as SomeSettings};
ghost use Rattle.cam_types.specs.Script.{format_fits, spec_fits};

use crate::list::Listing;

/// The pixel format of a stream.
#[derive(Clone, Copy, Debug, PartialEq, Eq)]
pub enum Format {
    /// 0x20: one value of the sensor in two bytes, low byte first.
    Raw16,
    /// 0x23: a plane Y, then a plane Cb and a plane Cr of half the width and height.
    Yuv,
    /// Any other format number.
    Other(u32),
}

/// A stream as a client asks for it; the size is in pixels.
#[derive(Clone, Copy, Debug, PartialEq, Eq)]
pub struct StreamSpec {
    pub input: bool,
    pub format: Format,
    pub width: u32,
    pub height: u32,
}

/// The streams of a `configure`.
pub type SpecList = Listing<StreamSpec>;

impl Format {
    /// Whether a script may hold the format.
    pub fn fits(self) -> bool
        ensures { result ≡ format_fits self }
    {
        match self {
            Format::Raw16 | Format::Yuv => true,
            Format::Other(number) => number != 32 && number != 35,
        }
    }
}

impl StreamSpec {
    /// Whether a script may hold the stream.
    pub fn fits(&self) -> bool
        ensures { result ≡ spec_fits self.now }
    {
        self.format.fits()
            && (0 < self.width && self.width < 65_536)
            && (0 < self.height && self.height < 65_536)
    }
}

/// The length of a picture of the stream, in bytes, and None exactly where its format or size isn't offered: RAW16
/// has 160 x 120 pixels, YUV 160 x 120, 80 x 60 or 40 x 30.
pub fn frame_bytes(spec: StreamSpec) -> Option<u32>
    ensures value { result ≡ frame_length spec }
    ensures offered { IsSome result ↔ IsTrue (is_offered spec) }
    ensures picture { IfSome result (λ bytes. (s : SomeSettings) (n : ℕ) → length (picture spec s n) ≡ bytes) }
{
    match (spec.format, spec.width, spec.height) {
        (Format::Raw16, 160, 120) => Some(38_400),
        (Format::Yuv, 160, 120) => Some(28_800),
        (Format::Yuv, 80, 60) => Some(7_200),
        (Format::Yuv, 40, 30) => Some(1_800),
        _ => None,
    }
}
