//! Draws a picture that nobody keeps, for its digest.
ghost use Rattle.std.specs.Prelude.{◌≡◌, ◌+◌, ◌*◌, ◌/◌, ◌≤◌, None, length, IsTrue};
ghost use Rattle.std.specs.List.{All};
ghost use Rattle.cam_types.specs.Metadata.{range_fault};
ghost use Rattle.cam_types.specs.Picture.{is_offered, is_yuv_size, picture, picture_of, raw_picture, yuv_picture};
ghost use Rattle.sha2.specs.Sha256.{sha256};

use crate::{
    SensorJob, a_raw_stream_has_raw_pictures, a_readout_lies_between_dark_and_full,
    a_yuv_stream_has_yuv_pictures, fill_raw, fill_yuv,
};
use cam_types::{
    BufferId, Format, FrameNo, NoMemory, PixelBuf, RAW_BLOCK, Readout, Settings, StreamSpec,
};
use std::alloc::Global;
use std::marker::Model;

/// What a picture is drawn with: the sensor's readout, and a block that the largest picture fits. A contract sees the
/// length of the block.
#[derive(Drop)]
pub struct Canvas {
    readout: Readout,
    block: Vec<u8>,
}

impl Model for Canvas {
    ghost use Rattle.std.specs.Prelude.{ℕ, ◌≡◌, length};

    ghost Value = { ℕ };

    ghost view = { λ c. length c.block.items };

    ghost invariant = { λ c. length c.block.items ≡ 38400 };
}

impl Canvas {
    /// Room for a readout and a picture.
    pub fn new(alloc: Global) -> Result<Canvas, NoMemory> {
        Ok(Canvas {
            readout: Readout::new(alloc)?,
            block: vec![in alloc; 0; RAW_BLOCK]?,
        })
    }

    /// Draws the frame's picture for a stream whose format and size are offered, and gives the SHA-256 of it, with the
    /// canvas. It takes no memory.
    pub fn digest(self, spec: StreamSpec, settings: Settings, frame: FrameNo) -> ([u8; 32], Canvas)
        requires settings { range_fault settings ≡ None }
        requires offered { IsTrue (is_offered spec) }
        ensures { result.0 ≡ sha256 (picture spec settings frame.0) }
    {
        a_readout_lies_between_dark_and_full();
        let Canvas { readout, block } = self;
        let (_, _, readout) = SensorJob::new(frame, settings, readout)
            .expose()
            .into_parts();
        let (digest, block) = draw(&readout, spec, block);
        (digest, Canvas { readout, block })
    }
}

/// Draws a stream's picture of the readout.
fn draw(readout: &Readout, spec: StreamSpec, block: Vec<u8>) -> ([u8; 32], Vec<u8>)
    requires values { All (λ v. (64 ≤ v) × (v ≤ 1023)) readout.now }
    requires offered { IsTrue (is_offered spec) }
    requires block { length block.items ≡ 38400 }
    ensures digest { result.0 ≡ sha256 (picture_of spec.format spec.width spec.height readout.now) }
    ensures block { length result.1.items ≡ 38400 }
{
    match spec.format {
        Format::Raw16 => draw_raw(readout, block),
        _ => draw_yuv(readout, spec.width, spec.height, block),
    }
}

/// Draws the RAW16 picture of the readout.
fn draw_raw(readout: &Readout, block: Vec<u8>) -> ([u8; 32], Vec<u8>)
    requires values { All (λ v. (64 ≤ v) × (v ≤ 1023)) readout.now }
    requires block { length block.items ≡ 38400 }
    ensures digest { result.0 ≡ sha256 (raw_picture readout.now) }
    ensures block { length result.1.items ≡ 38400 }
{
    let mut picture = PixelBuf::over(block, BufferId(0), 38_400);
    let digest = fill_raw(readout, &mut picture);
    (digest, picture.into_block())
}

/// Draws the YUV picture of the readout, of a size that is offered.
fn draw_yuv(readout: &Readout, width: u32, height: u32, block: Vec<u8>) -> ([u8; 32], Vec<u8>)
    requires values { All (λ v. (64 ≤ v) × (v ≤ 1023)) readout.now }
    requires size { IsTrue (is_yuv_size width height) }
    requires block { length block.items ≡ 38400 }
    ensures digest { result.0 ≡ sha256 (yuv_picture width height readout.now) }
    ensures block { length result.1.items ≡ 38400 }
{
    let bytes = yuv_bytes(width, height);
    let mut picture = PixelBuf::over(block, BufferId(0), bytes);
    let digest = fill_yuv(readout, width, height, &mut picture);
    (digest, picture.into_block())
}

/// How many bytes a YUV picture of a size that is offered has.
fn yuv_bytes(width: u32, height: u32) -> u32
    requires { IsTrue (is_yuv_size width height) }
    ensures bytes { result ≡ width * height * 3 / 2 }
    ensures fits { result ≤ 38400 }
{
    match (width, height) {
        (160, 120) => 28_800,
        (80, 60) => 7_200,
        _ => 1_800,
    }
}
