//! What pictures are drawn with: one of them is there at a time.
ghost use Rattle.std.specs.Prelude.{◌≡◌, ◌*◌, ◌/◌, ◌≤◌, length, IsTrue};
ghost use Rattle.std.specs.List.{All};
ghost use Rattle.cam_types.specs.Picture.{is_offered, is_yuv_size, picture_of, raw_picture, yuv_picture};
ghost use Rattle.video_call.specs.Drawing.{is_drawable};
ghost use Rattle.video_call.specs.Shows.{bytes_of};

use crate::Shot;
use cam_types::{BufferId, Format, NoMemory, PixelBuf, RAW_BLOCK, Readout, StreamSpec};
use picture_stages::{SensorJob, a_readout_lies_between_dark_and_full, draw_raw, draw_yuv};
use std::alloc::Global;
use std::marker::Model;

/// The sensor's readout, and a block that the largest picture fits. A contract sees the length of the block.
#[derive(Drop)]
pub(crate) struct Easel {
    readout: Readout,
    block: Vec<u8>,
}

impl Model for Easel {
    ghost use Rattle.std.specs.Prelude.{ℕ, ◌≡◌, length};

    ghost Value = { ℕ };

    ghost view = { λ e. length e.block.items };

    ghost invariant = { λ e. length e.block.items ≡ 38400 };
}

impl Easel {
    /// Room for a readout and a picture.
    pub(crate) fn new(alloc: Global) -> Result<Easel, NoMemory> {
        Ok(Easel {
            readout: Readout::new(alloc)?,
            block: vec![in alloc; 0; RAW_BLOCK]?,
        })
    }

    /// Draws a picture. `take_back` makes an easel again of what it gives. It takes no memory.
    pub(crate) fn draw(self, shot: Shot) -> (PixelBuf, Readout)
        requires { IsTrue (is_drawable shot) }
        ensures picture { result.0.bytes ≡ bytes_of shot }
        ensures block { result.0.block ≡ 38400 }
    {
        a_readout_lies_between_dark_and_full();
        let Easel { readout, block } = self;
        let (_, _, readout) = SensorJob::new(shot.frame, shot.settings, readout)
            .expose()
            .into_parts();
        let picture = draw(&readout, shot.spec, block);
        (picture, readout)
    }

    /// The easel of which a picture was drawn.
    pub(crate) fn take_back(picture: PixelBuf, readout: Readout) -> Easel
        requires { picture.block ≡ 38400 }
    {
        Easel {
            readout,
            block: picture.into_block(),
        }
    }
}

/// Draws a stream's picture of the readout.
fn draw(readout: &Readout, spec: StreamSpec, block: Vec<u8>) -> PixelBuf
    requires values { All (λ v. (64 ≤ v) × (v ≤ 1023)) readout.now }
    requires offered { IsTrue (is_offered spec) }
    requires block { length block.items ≡ 38400 }
    ensures picture { result.bytes ≡ picture_of spec.format spec.width spec.height readout.now }
    ensures block { result.block ≡ 38400 }
{
    match spec.format {
        Format::Raw16 => draw_on_raw(readout, block),
        _ => draw_on_yuv(readout, spec.width, spec.height, block),
    }
}

/// Draws the RAW16 picture of the readout.
fn draw_on_raw(readout: &Readout, block: Vec<u8>) -> PixelBuf
    requires values { All (λ v. (64 ≤ v) × (v ≤ 1023)) readout.now }
    requires block { length block.items ≡ 38400 }
    ensures picture { result.bytes ≡ raw_picture readout.now }
    ensures block { result.block ≡ 38400 }
{
    let mut picture = PixelBuf::over(block, BufferId(0), 38_400);
    draw_raw(readout, &mut picture);
    picture
}

/// Draws the YUV picture of the readout, of a size that is offered.
fn draw_on_yuv(readout: &Readout, width: u32, height: u32, block: Vec<u8>) -> PixelBuf
    requires values { All (λ v. (64 ≤ v) × (v ≤ 1023)) readout.now }
    requires size { IsTrue (is_yuv_size width height) }
    requires block { length block.items ≡ 38400 }
    ensures picture { result.bytes ≡ yuv_picture width height readout.now }
    ensures block { result.block ≡ 38400 }
{
    let bytes = yuv_bytes(width, height);
    let mut picture = PixelBuf::over(block, BufferId(0), bytes);
    draw_yuv(readout, width, height, &mut picture);
    picture
}

/// How many bytes a YUV picture of a size that is offered has.
fn yuv_bytes(width: u32, height: u32) -> u32
    requires { IsTrue (is_yuv_size width height) }
    ensures bytes { result ≡ width * height * 3 / 2 }
    ensures fits { result ≤ 38400 }
{
    match (width, height) {
        (160, 120) => 28_800,
        (80, 60) => 7_200,
        _ => 1_800,
    }
}
