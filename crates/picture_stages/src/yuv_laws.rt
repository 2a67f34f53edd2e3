//! What a YUV stream shows.
ghost use Rattle.std.specs.Prelude.{◌≡◌, ℕ};
ghost use Rattle.cam_types.specs.Picture.{picture, readout, yuv_picture};
ghost use Rattle.cam_types.specs.declared.item.Settings.{Settings as SomeSettings};
ghost use Rattle.cam_types.specs.declared.stream.StreamSpec.{StreamSpec as SomeSpec};

use cam_types::Format;

/// The picture of a YUV stream is the YUV picture of the frame's readout, of the stream's size.
pub fn a_yuv_stream_has_yuv_pictures()
    ensures { (spec : SomeSpec) (s : SomeSettings) (n : ℕ) → spec.format ≡ Format.Yuv →
        picture spec s n ≡ yuv_picture spec.width spec.height (readout s n) }
{}
