//! The tags of settings and results, with their types and ranges.
ghost use Rattle.std.specs.Prelude.{◌≡◌};
ghost use Rattle.cam_types.specs.Metadata.{range_fault as fault_of, is_pattern as is_right_pattern, is_level as is_right_level, is_exposure as is_right_exposure, is_sensitivity as is_right_sensitivity};

use cam_types::Settings;

/// The tag of the test pattern, a BYTE.
pub const PATTERN: u32 = 0x8000_0000;

/// The tag of the pattern's brightness, an INT32.
pub const LEVEL: u32 = 0x8000_0001;

/// The tag of the exposure time in nanoseconds, an INT64.
pub const EXPOSURE: u32 = 0x8000_0002;

/// The tag of the sensitivity (ISO), an INT32.
pub const SENSITIVITY: u32 = 0x8000_0003;

/// The tag of the shutter's time in nanoseconds, an INT64. Results alone have it.
pub const TIMESTAMP: u32 = 0x8000_0004;

/// 0 solid, 1 bars, 2 ramp.
pub(crate) fn is_pattern(pattern: u8) -> bool
    ensures { result ≡ is_right_pattern pattern }
{
    pattern <= 2
}

pub(crate) fn is_level(level: u32) -> bool
    ensures { result ≡ is_right_level level }
{
    level <= 255
}

/// 0.1 ms to 100 ms.
pub(crate) fn is_exposure(exposure: u64) -> bool
    ensures { result ≡ is_right_exposure exposure }
{
    100_000 <= exposure && exposure <= 100_000_000
}

pub(crate) fn is_sensitivity(iso: u32) -> bool
    ensures { result ≡ is_right_sensitivity iso }
{
    100 <= iso && iso <= 1_600
}

/// The least tag whose setting is out of its range.
pub fn range_fault(settings: Settings) -> Option<u32>
    ensures { result ≡ fault_of settings }
{
    if !is_pattern(settings.pattern) {
        Some(PATTERN)
    } else if !is_level(settings.level) {
        Some(LEVEL)
    } else if !is_exposure(settings.exposure) {
        Some(EXPOSURE)
    } else if !is_sensitivity(settings.iso) {
        Some(SENSITIVITY)
    } else {
        None
    }
}

/// Settings with a name.
#[derive(Clone, Copy, PartialEq, Eq)]
pub enum Template {
    Preview,
    Still,
}
