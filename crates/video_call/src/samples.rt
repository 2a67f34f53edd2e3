//! The bytes of RAW16 samples as PGM has them.
ghost use Rattle.std.specs.Prelude.{◌≡◌, ◌*◌, ℕ, length};
ghost use Rattle.video_call.specs.Samples.{exchanged};

/// Exchanges the two bytes of each sample.
pub(crate) fn exchange(bytes: &mut [u8])
    ensures { bytes.new ≡ exchanged bytes.old }
{
    for sample in 0..bytes.len() / 2 {
        let low = bytes[2 * sample];
        bytes[2 * sample] = bytes[2 * sample + 1];
        bytes[2 * sample + 1] = low;
    }
}
