//! The partial results of a frame: what each of its three parts says.

ghost use Rattle.std.specs.Prelude.{◌≡◌, ◌≤◌};
ghost use Rattle.cam_types.specs.Metadata.{part_at};

use cam_types::{PARTIAL_RESULT_COUNT, PartialResult, Settings};

/// Part `k` of the metadata of a frame that has these settings and whose shutter was at `time`, in nanoseconds.
pub fn part(k: u8, settings: Settings, time: u64) -> PartialResult
    requires at_least { 1 ≤ k }
    requires at_most { k ≤ PARTIAL_RESULT_COUNT }
    ensures { result ≡ part_at k settings time }
{
    match k {
        1 => PartialResult::Look {
            pattern: settings.pattern,
            level: settings.level,
        },
        2 => PartialResult::Light {
            exposure: settings.exposure,
            iso: settings.iso,
        },
        _ => PartialResult::Time { timestamp: time },
    }
}
