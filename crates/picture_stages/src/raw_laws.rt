//! What a RAW16 stream shows.
ghost use Rattle.std.specs.Prelude.{◌≡◌, ℕ};
ghost use Rattle.cam_types.specs.Picture.{picture, raw_picture, readout};
ghost use Rattle.cam_types.specs.declared.item.Settings.{Settings as SomeSettings};
ghost use Rattle.cam_types.specs.declared.stream.StreamSpec.{StreamSpec as SomeSpec};

use cam_types::Format;

/// The picture of a RAW16 stream is the RAW16 picture of the frame's readout.
pub fn a_raw_stream_has_raw_pictures()
    ensures { (spec : SomeSpec) (s : SomeSettings) (n : ℕ) → spec.format ≡ Format.Raw16 →
        picture spec s n ≡ raw_picture (readout s n) }
{}
