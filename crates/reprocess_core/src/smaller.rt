//! A YUV picture that is made smaller, into a buffer, with the digest of what was written where that is wanted.
ghost use Rattle.std.specs.Prelude.{◌≡◌, ◌*◌, ◌/◌, ◌≤◌, ◌++◌, IsTrue, length, take, drop};
ghost use Rattle.cam_types.specs.Picture.{is_yuv_size};
ghost use Rattle.reprocess_model.specs.Reduce.{reduced, reduced_plane, reduced_to};
ghost use Rattle.reprocess_core.specs.Outputs.{CanBeMade};
ghost use Rattle.sha2.specs.Sha256.{sha256};

use crate::plane::write_plane;
use cam_types::{PixelBuf, StreamSpec};
use sha2::{Digest, Sha256};

/// Writes the three planes of a picture from those of one that has `STEP` times as many columns and rows. The size is
/// that of the planes Cb and Cr of the smaller picture.
fn write_planes<const STEP: usize>(from: &[u8], width: usize, height: usize, bytes: &mut [u8])
    requires least { 1 ≤ STEP }
    requires some_columns { 1 ≤ width }
    requires some_rows { 1 ≤ height }
    requires columns { width * STEP ≤ 80 }
    requires len { length from.now ≡ 6 * (width * STEP * (height * STEP)) }
    requires room { length bytes.old ≡ 6 * (width * height) }
    requires most { length from.now ≤ 28800 }
    requires less { length bytes.old ≤ 28800 }
    ensures { let area = width * STEP * (height * STEP) in bytes.new ≡
        reduced_plane (take (4 * area) from.now) (2 * width * STEP) (2 * height * STEP) (2 * width) (2 * height)
        ++ (reduced_plane (take area (drop (4 * area) from.now)) (width * STEP) (height * STEP) width height
        ++ reduced_plane (drop area (drop (4 * area) from.now)) (width * STEP) (height * STEP) width height) }
{
    let area = from.len() / 6;
    let (from_luma, from_chroma) = from.split_at(4 * area);
    let (from_blue, from_red) = from_chroma.split_at(area);
    let room = bytes.len() / 6;
    let (luma, chroma) = bytes.split_at_mut(4 * room);
    let (blue, red) = chroma.split_at_mut(room);
    write_plane::<STEP>(from_luma, 2 * width, 2 * height, luma);
    write_plane::<STEP>(from_blue, width, height, blue);
    write_plane::<STEP>(from_red, width, height, red);
}

/// Writes a picture from one of 160 x 120 pixels.
fn write_from_wide(input: &[u8], width: u32, height: u32, bytes: &mut [u8])
    requires size { IsTrue (is_yuv_size width height) }
    requires len { length input.now ≡ 28800 }
    requires room { length bytes.old ≡ width * height * 3 / 2 }
    ensures { bytes.new ≡ reduced_to 160 120 width height input.now }
{
    match width {
        160 => write_planes::<1>(input, 80, 60, bytes),
        80 => write_planes::<2>(input, 40, 30, bytes),
        _ => write_planes::<4>(input, 20, 15, bytes),
    }
}

/// Writes a picture from one of 80 x 60 pixels.
fn write_from_half(input: &[u8], width: u32, height: u32, bytes: &mut [u8])
    requires size { IsTrue (is_yuv_size width height) }
    requires smaller { width ≤ 80 }
    requires len { length input.now ≡ 7200 }
    requires room { length bytes.old ≡ width * height * 3 / 2 }
    ensures { bytes.new ≡ reduced_to 80 60 width height input.now }
{
    match width {
        80 => write_planes::<1>(input, 40, 30, bytes),
        _ => write_planes::<2>(input, 20, 15, bytes),
    }
}

/// Writes a picture from one of 40 x 30 pixels, which is as large.
fn write_from_quarter(input: &[u8], bytes: &mut [u8])
    requires len { length input.now ≡ 1800 }
    requires room { length bytes.old ≡ 1800 }
    ensures { bytes.new ≡ reduced_to 40 30 40 30 input.now }
{
    write_planes::<1>(input, 20, 15, bytes)
}

/// Writes a picture from one that is as large, twice or four times as large.
fn write_reduced(input: &[u8], from: StreamSpec, to: StreamSpec, bytes: &mut [u8])
    requires from_offered { IsTrue (is_yuv_size from.width from.height) }
    requires to_offered { IsTrue (is_yuv_size to.width to.height) }
    requires smaller { to.width ≤ from.width }
    requires len { length input.now ≡ from.width * from.height * 3 / 2 }
    requires room { length bytes.old ≡ to.width * to.height * 3 / 2 }
    ensures { bytes.new ≡ reduced from to input.now }
{
    match from.width {
        160 => write_from_wide(input, to.width, to.height, bytes),
        80 => write_from_half(input, to.width, to.height, bytes),
        _ => write_from_quarter(input, bytes),
    }
}

/// Makes a picture smaller: writes the bytes of a picture of `to`, in pixels no larger than `from`, from those of a
/// picture of `from` into a buffer that shows as many, three for two pixels. It takes no memory.
pub fn draw_reduced(input: &[u8], from: StreamSpec, to: StreamSpec, out: &mut PixelBuf)
    requires sizes { CanBeMade from to }
    requires len { length input.now ≡ from.width * from.height * 3 / 2 }
    requires room { length out.old.bytes ≡ to.width * to.height * 3 / 2 }
    ensures picture { out.new ≡ record out.old { bytes = reduced from to input.now } }
    ensures len { length out.new.bytes ≡ to.width * to.height * 3 / 2 }
{
    write_reduced(input, from, to, out.bytes_mut());
}

/// Makes a picture smaller as `draw_reduced` does, and answers the SHA-256 of what it wrote. It takes no memory.
pub fn reduce(input: &[u8], from: StreamSpec, to: StreamSpec, out: &mut PixelBuf) -> [u8; 32]
    requires sizes { CanBeMade from to }
    requires len { length input.now ≡ from.width * from.height * 3 / 2 }
    requires room { length out.old.bytes ≡ to.width * to.height * 3 / 2 }
    ensures picture { out.new ≡ record out.old { bytes = reduced from to input.now } }
    ensures len { length out.new.bytes ≡ to.width * to.height * 3 / 2 }
    ensures digest { result ≡ sha256 (reduced from to input.now) }
{
    draw_reduced(input, from, to, out);
    Sha256::digest(out.bytes())
}
