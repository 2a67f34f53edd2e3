//! What a picture depends on.
ghost use Rattle.std.specs.Prelude.{◌≡◌, ◌<◌, ◌↔◌, IsTrue};
ghost use Rattle.picture_stages.specs.Keys.{key_of, turn_of};

use cam_types::{Format, FrameNo, Settings, StreamSpec};

/// What a picture of a stream that is offered depends on. Pictures with equal keys are equal.
#[derive(Clone, Copy, PartialEq, Eq, Hash)]
pub struct PictureKey {
    /// Whether the format is RAW16; else it is YUV.
    pub raw: bool,
    /// The size in pixels.
    pub width: u32,
    pub height: u32,
    /// The settings of the capture.
    pub pattern: u8,
    pub level: u32,
    pub exposure: u64,
    pub iso: u32,
    /// How far the ramp has moved, 0 to 255; 0 for the other patterns.
    pub turn: u32,
}

/// How far the ramp has moved at the frame; 0 for the other patterns.
pub fn turn_of(settings: Settings, frame: FrameNo) -> u32
    ensures { result ≡ turn_of settings frame.0 }
{
    if settings.pattern == 0 || settings.pattern == 1 {
        0
    } else {
        frame.0 % 256
    }
}

/// What the frame's picture for the stream depends on.
pub(crate) fn key_of(spec: StreamSpec, settings: Settings, frame: FrameNo) -> PictureKey
    ensures { result ≡ key_of spec settings frame.0 }
{
    PictureKey {
        raw: matches!(spec.format, Format::Raw16),
        width: spec.width,
        height: spec.height,
        pattern: settings.pattern,
        level: settings.level,
        exposure: settings.exposure,
        iso: settings.iso,
        turn: turn_of(settings, frame),
    }
}

/// Whether two keys are the same.
pub(crate) fn is_same_key(a: PictureKey, b: PictureKey) -> bool
    ensures { IsTrue result ↔ (a ≡ b) }
{
    a == b
}
