//! The YUV stage: fills a buffer and hashes it.
ghost use Rattle.std.specs.Prelude.{◌≡◌, ◌+◌, ◌*◌, ◌/◌, ◌≤◌, length, IsTrue};
ghost use Rattle.std.specs.List.{All};
ghost use Rattle.cam_types.specs.Picture.{is_yuv_size, yuv_picture};
ghost use Rattle.sha2.specs.Sha256.{sha256};

use crate::bands::write_bands;
use crate::fill::digest_of;
use crate::narrow::{write_half_planes, write_quarter_planes};
use crate::wide::write_band;
use cam_types::{PixelBuf, Readout};
use std::thread::Threads;

/// The least picture whose rows are divided into bands, in pixels: that of the sensor's size. Beside its digest it takes
/// some 6 microseconds, a third of what a thread takes from its start until it is joined; a smaller picture takes less.
const LEAST_DIVIDED: u32 = 19_200;

/// Writes the picture of the sensor's size.
fn write_wide(values: &[u16], bytes: &mut [u8])
    requires len { length values.now ≡ 19200 }
    requires values { All (λ v. (64 ≤ v) × (v ≤ 1023)) values.now }
    requires room { length bytes.old ≡ 28800 }
    ensures { bytes.new ≡ yuv_picture 160 120 values.now }
{
    let (luma, chroma) = bytes.split_at_mut(19_200);
    let (blue, red) = chroma.split_at_mut(4_800);
    write_band(values, 0, 60, luma, blue, red);
}

/// Writes the picture of the sensor's size in so many bands side by side.
fn write_wide_bands<R: Threads + Sync>(rt: &R, bands: u32, values: &[u16], bytes: &mut [u8])
    requires len { length values.now ≡ 19200 }
    requires values { All (λ v. (64 ≤ v) × (v ≤ 1023)) values.now }
    requires room { length bytes.old ≡ 28800 }
    ensures { bytes.new ≡ yuv_picture 160 120 values.now }
{
    let (luma, chroma) = bytes.split_at_mut(19_200);
    let (blue, red) = chroma.split_at_mut(4_800);
    write_bands(rt, bands, values, 0, 60, luma, blue, red);
}

/// Writes the picture of half the sensor's size.
fn write_half(values: &[u16], bytes: &mut [u8])
    requires len { length values.now ≡ 19200 }
    requires values { All (λ v. (64 ≤ v) × (v ≤ 1023)) values.now }
    requires room { length bytes.old ≡ 7200 }
    ensures { bytes.new ≡ yuv_picture 80 60 values.now }
{
    let (luma, chroma) = bytes.split_at_mut(4_800);
    let (blue, red) = chroma.split_at_mut(1_200);
    write_half_planes(values, luma, blue, red);
}

/// Writes the picture of a quarter of the sensor's size.
fn write_quarter(values: &[u16], bytes: &mut [u8])
    requires len { length values.now ≡ 19200 }
    requires values { All (λ v. (64 ≤ v) × (v ≤ 1023)) values.now }
    requires room { length bytes.old ≡ 1800 }
    ensures { bytes.new ≡ yuv_picture 40 30 values.now }
{
    let (luma, chroma) = bytes.split_at_mut(1_200);
    let (blue, red) = chroma.split_at_mut(300);
    write_quarter_planes(values, luma, blue, red);
}

/// Writes the YUV picture of a readout, of one of the three sizes.
fn write_picture(values: &[u16], width: u32, height: u32, bytes: &mut [u8])
    requires len { length values.now ≡ 19200 }
    requires values { All (λ v. (64 ≤ v) × (v ≤ 1023)) values.now }
    requires size { IsTrue (is_yuv_size width height) }
    requires room { length bytes.old ≡ width * height * 3 / 2 }
    ensures { bytes.new ≡ yuv_picture width height values.now }
{
    match width {
        160 => write_wide(values, bytes),
        80 => write_half(values, bytes),
        _ => write_quarter(values, bytes),
    }
}

/// Writes the YUV picture of a readout, of 160 x 120, 80 x 60 or 40 x 30 pixels, into a buffer that shows its bytes,
/// three for two pixels. It takes no memory.
pub fn draw_yuv(readout: &Readout, width: u32, height: u32, out: &mut PixelBuf)
    requires values { All (λ v. (64 ≤ v) × (v ≤ 1023)) readout.now }
    requires size { IsTrue (is_yuv_size width height) }
    requires room { length out.old.bytes ≡ width * height * 3 / 2 }
    ensures picture { out.new ≡
        record { id = out.old.id; bytes = yuv_picture width height readout.now; block = out.old.block } }
    ensures len { length out.new.bytes ≡ width * height * 3 / 2 }
{
    write_picture(readout.values(), width, height, out.bytes_mut());
}

/// Writes the YUV picture of a readout as `draw_yuv` does, and answers the SHA-256 of it. It takes no memory.
pub fn fill_yuv(readout: &Readout, width: u32, height: u32, out: &mut PixelBuf) -> [u8; 32]
    requires values { All (λ v. (64 ≤ v) × (v ≤ 1023)) readout.now }
    requires size { IsTrue (is_yuv_size width height) }
    requires room { length out.old.bytes ≡ width * height * 3 / 2 }
    ensures picture { out.new ≡
        record { id = out.old.id; bytes = yuv_picture width height readout.now; block = out.old.block } }
    ensures len { length out.new.bytes ≡ width * height * 3 / 2 }
    ensures digest { result ≡ sha256 (yuv_picture width height readout.now) }
{
    draw_yuv(readout, width, height, out);
    digest_of(out)
}

/// Writes the YUV picture of a readout as `fill_yuv` does, the rows of one of 160 x 120 in 1 to 8 bands that are written
/// side by side, each by a thread of its own where one can be made; then one thread takes the digest. It takes no
/// memory. A smaller picture is written in one piece: a thread costs more than all of its rows.
pub fn fill_yuv_bands<R: Threads + Sync>(
    rt: &R,
    readout: &Readout,
    width: u32,
    height: u32,
    bands: u32,
    out: &mut PixelBuf,
) -> [u8; 32]
    requires values { All (λ v. (64 ≤ v) × (v ≤ 1023)) readout.now }
    requires size { IsTrue (is_yuv_size width height) }
    requires least { 1 ≤ bands }
    requires most { bands ≤ 8 }
    requires room { length out.old.bytes ≡ width * height * 3 / 2 }
    ensures picture { out.new ≡
        record { id = out.old.id; bytes = yuv_picture width height readout.now; block = out.old.block } }
    ensures len { length out.new.bytes ≡ width * height * 3 / 2 }
    ensures digest { result ≡ sha256 (yuv_picture width height readout.now) }
{
    if width * height < LEAST_DIVIDED {
        return fill_yuv(readout, width, height, out);
    }
    write_wide_bands(rt, bands, readout.values(), out.bytes_mut());
    digest_of(out)
}
