//! Draws a picture into a buffer, by the stage of its format.
ghost use Rattle.std.specs.Prelude.{◌≡◌, ◌≤◌, length, IsTrue};
ghost use Rattle.std.specs.List.{All};
ghost use Rattle.cam_types.specs.Picture.{is_offered, length_in, picture_of};
ghost use Rattle.sha2.specs.Sha256.{sha256};
ghost use Rattle.fill_jobs.specs.Buffers.{drawn};

use cam_types::{Format, PixelBuf, Readout, StreamSpec};
use picture_stages::{draw_raw, draw_yuv, fill_raw, fill_raw_bands, fill_yuv, fill_yuv_bands};
use std::thread::Threads;

/// Draws a stream's picture of the readout into a buffer of its length.
pub(crate) fn draw_alone(readout: &Readout, spec: StreamSpec, pixels: &mut PixelBuf)
    requires values { All (λ v. (64 ≤ v) × (v ≤ 1023)) readout.now }
    requires offered { IsTrue (is_offered spec) }
    requires room { length pixels.old.bytes ≡ length_in spec.format spec.width spec.height }
    ensures { pixels.new ≡ drawn spec readout.now pixels.old }
{
    match spec.format {
        Format::Raw16 => draw_raw(readout, pixels),
        _ => draw_yuv(readout, spec.width, spec.height, pixels),
    }
}

/// Draws a stream's picture as `draw_alone` does, and answers the SHA-256 of it.
pub(crate) fn draw(readout: &Readout, spec: StreamSpec, pixels: &mut PixelBuf) -> [u8; 32]
    requires values { All (λ v. (64 ≤ v) × (v ≤ 1023)) readout.now }
    requires offered { IsTrue (is_offered spec) }
    requires room { length pixels.old.bytes ≡ length_in spec.format spec.width spec.height }
    ensures picture { pixels.new ≡ drawn spec readout.now pixels.old }
    ensures digest { result ≡ sha256 (picture_of spec.format spec.width spec.height readout.now) }
{
    match spec.format {
        Format::Raw16 => fill_raw(readout, pixels),
        _ => fill_yuv(readout, spec.width, spec.height, pixels),
    }
}

/// Draws a stream's picture as `draw` does, its rows in 1 to 8 bands side by side.
pub(crate) fn draw_bands<R: Threads + Sync>(
    rt: &R,
    readout: &Readout,
    spec: StreamSpec,
    bands: u32,
    pixels: &mut PixelBuf,
) -> [u8; 32]
    requires values { All (λ v. (64 ≤ v) × (v ≤ 1023)) readout.now }
    requires offered { IsTrue (is_offered spec) }
    requires least { 1 ≤ bands }
    requires most { bands ≤ 8 }
    requires room { length pixels.old.bytes ≡ length_in spec.format spec.width spec.height }
    ensures picture { pixels.new ≡ drawn spec readout.now pixels.old }
    ensures digest { result ≡ sha256 (picture_of spec.format spec.width spec.height readout.now) }
{
    match spec.format {
        Format::Raw16 => fill_raw_bands(rt, readout, bands, pixels),
        _ => fill_yuv_bands(rt, readout, spec.width, spec.height, bands, pixels),
    }
}
