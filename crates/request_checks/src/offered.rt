//! Which streams are offered.
ghost use Rattle.std.specs.Prelude.{◌≡◌};
ghost use Rattle.cam_types.specs.Picture.{is_offered};

use cam_types::{StreamSpec, frame_bytes};

/// Whether the stream's format is offered, in its size: RAW16 in 160 x 120 pixels, YUV in 160 x 120, 80 x 60 or 40 x 30.
pub fn is_offered(spec: StreamSpec) -> bool
    ensures { result ≡ is_offered spec }
{
    frame_bytes(spec).is_some()
}
