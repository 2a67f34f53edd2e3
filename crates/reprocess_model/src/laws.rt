//! First consequences of the definitions.
ghost use Rattle.std.specs.Prelude.{◌≡◌, ℕ, ◌*◌, ◌/◌, IsTrue, length, List};
ghost use Rattle.cam_types.specs.Picture.{is_offered, length_in};
ghost use Rattle.cam_types.specs.declared.stream.StreamSpec.{StreamSpec as SomeSpec};
ghost use Rattle.reprocess_model.specs.Plan.{is_yuv};
ghost use Rattle.reprocess_model.specs.Reduce.{reduced};

/// A YUV stream of an offered size is offered.
pub fn a_yuv_stream_is_offered()
    ensures { (spec : SomeSpec) → IsTrue (is_yuv spec) → IsTrue (is_offered spec) }
{}
