//! The RAW16 stage: fills a buffer and hashes it.
ghost use Rattle.std.specs.Prelude.{◌≡◌, ℕ, ◌+◌, ◌*◌, ◌%◌, ◌<◌, ◌≤◌, length, slice_index};
ghost use Rattle.std.specs.List.{All};
ghost use Rattle.cam_types.specs.Picture.{raw_picture};
ghost use Rattle.sha2.specs.Sha256.{sha256};

use crate::rows::HEIGHT;
use cam_types::{PixelBuf, Readout};
use sha2::{Digest, Sha256};
use std::thread::{Threads, for_each_chunk_mut};

/// The bytes of a row: two for each of its 160 values.
const ROW_BYTES: usize = 320;

/// Writes each value as two bytes, the low one first.
fn write_bytes(values: &[u16], bytes: &mut [u8])
    requires { length bytes.old ≡ length values.now * 2 }
    ensures { bytes.new ≡ raw_picture values.now }
{
    for (i, value) in values.iter().enumerate() {
        let [low, high] = value.to_le_bytes();
        bytes[2 * i] = low;
        bytes[2 * i + 1] = high;
    }
}

/// Writes each value as two bytes, the low one first, in so many bands of whole rows side by side. The last band has the
/// fewest rows.
fn write_bands<R: Threads + Sync>(rt: &R, bands: u32, values: &[u16], bytes: &mut [u8])
    requires least { 1 ≤ bands }
    requires room { length bytes.old ≡ length values.now * 2 }
    ensures { bytes.new ≡ raw_picture values.now }
{
    let size = HEIGHT.div_ceil(bands as usize) * ROW_BYTES;
    for_each_chunk_mut(
        rt,
        bytes,
        size,
        &|start: usize, band: &mut [u8]|
            requires { (start % 2 ≡ 0) × (length band.old % 2 ≡ 0)
                × (start + length band.old ≤ length values.now * 2) }
            ensures { (k : ℕ) → k < length band.old →
                slice_index band.new k ≡ slice_index (raw_picture values.entry.now) (start + k) }
        {
            let first = start / 2;
            write_bytes(&values[first..first + band.len() / 2], band)
        },
    );
}

/// The SHA-256 of what a buffer shows.
pub(crate) fn digest_of(out: &PixelBuf) -> [u8; 32]
    ensures { result ≡ sha256 out.now.bytes }
{
    Sha256::digest(out.bytes())
}

/// Writes the RAW16 picture of a readout into a buffer that shows its 38,400 bytes. It takes no memory.
pub fn draw_raw(readout: &Readout, out: &mut PixelBuf)
    requires values { All (λ v. (64 ≤ v) × (v ≤ 1023)) readout.now }
    requires room { length out.old.bytes ≡ 38400 }
    ensures picture { out.new ≡ record { id = out.old.id; bytes = raw_picture readout.now; block = out.old.block } }
    ensures len { length out.new.bytes ≡ 38400 }
{
    write_bytes(readout.values(), out.bytes_mut());
}

/// Writes the RAW16 picture of a readout as `draw_raw` does, and answers the SHA-256 of it. It takes no memory.
pub fn fill_raw(readout: &Readout, out: &mut PixelBuf) -> [u8; 32]
    requires values { All (λ v. (64 ≤ v) × (v ≤ 1023)) readout.now }
    requires room { length out.old.bytes ≡ 38400 }
    ensures picture { out.new ≡ record { id = out.old.id; bytes = raw_picture readout.now; block = out.old.block } }
    ensures len { length out.new.bytes ≡ 38400 }
    ensures digest { result ≡ sha256 (raw_picture readout.now) }
{
    draw_raw(readout, out);
    digest_of(out)
}

/// Writes the RAW16 picture of a readout as `fill_raw` does, its rows in 1 to 8 bands that are written side by side, each
/// by a thread of its own where one can be made; then one thread takes the digest. It takes no memory.
pub fn fill_raw_bands<R: Threads + Sync>(
    rt: &R,
    readout: &Readout,
    bands: u32,
    out: &mut PixelBuf,
) -> [u8; 32]
    requires values { All (λ v. (64 ≤ v) × (v ≤ 1023)) readout.now }
    requires least { 1 ≤ bands }
    requires most { bands ≤ 8 }
    requires room { length out.old.bytes ≡ 38400 }
    ensures picture { out.new ≡ record { id = out.old.id; bytes = raw_picture readout.now; block = out.old.block } }
    ensures len { length out.new.bytes ≡ 38400 }
    ensures digest { result ≡ sha256 (raw_picture readout.now) }
{
    write_bands(rt, bands, readout.values(), out.bytes_mut());
    digest_of(out)
}
