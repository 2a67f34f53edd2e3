//! The digest of a picture that was drawn: remembered, or hashed and remembered.
ghost use Rattle.std.specs.Prelude.{◌≡◌, IsTrue};
ghost use Rattle.cam_types.specs.Picture.{is_offered, picture};
ghost use Rattle.sha2.specs.Sha256.{sha256};

use cam_types::{FrameNo, PixelBuf, Settings, StreamSpec};
use picture_stages::DigestMemory;
use sha2::{Digest, Sha256};

/// The SHA-256 of the frame's picture for the stream, which the buffer shows. It is hashed where the memory doesn't know
/// it.
pub(crate) fn digest_with(
    memory: &mut DigestMemory,
    spec: StreamSpec,
    settings: Settings,
    frame: FrameNo,
    pixels: &PixelBuf,
) -> [u8; 32]
    requires offered { IsTrue (is_offered spec) }
    requires shown { pixels.now.bytes ≡ picture spec settings frame.0 }
    ensures { result ≡ sha256 (picture spec settings frame.0) }
{
    if let Some(digest) = memory.find(spec, settings, frame) {
        return digest;
    }
    let digest = Sha256::digest(pixels.bytes());
    memory.remember(spec, settings, frame, digest);
    digest
}
