//! What the sensor sees: patterns, light and noise.
ghost use Rattle.std.specs.Prelude.{◌≡◌, ℕ, ◌+◌, ◌*◌, ◌/◌, ◌≤◌, None};
ghost use Rattle.cam_types.specs.Metadata.{range_fault};
ghost use Rattle.cam_types.specs.Picture.{channel_at, is_lit as lit_by, scene as scene_at, sensor_value as value_of};

use cam_types::{FrameNo, Settings};

/// Nanoseconds in a step of the exposure.
const EXPOSURE_STEP: u64 = 100_000;

/// What a sensor value is without light.
const DARK: u32 = 64;

/// The most that light adds to a sensor value.
const FULL: u32 = 959;

/// The light that one step of the scene gives: the exposure in steps of 100,000 ns times the sensitivity.
pub fn gain_of(settings: Settings) -> u32
    requires { range_fault settings ≡ None }
    ensures value { result ≡ (settings.exposure / 100000) * settings.iso }
    ensures most { result ≤ 1600000 }
{
    (settings.exposure / EXPOSURE_STEP) as u32 * settings.iso
}

/// Whether the bar at a column has the colour of the filter at the column and row.
fn is_lit(x: u32, y: u32) -> bool
    ensures { result ≡ lit_by (channel_at x y) (x / 20) }
{
    let bar = x / 20;
    if x % 2 == 0 && y % 2 == 0 {
        bar % 4 < 2
    } else if x % 2 == 1 && y % 2 == 1 {
        bar % 2 == 0
    } else {
        bar < 4
    }
}

/// The brightness that the filter at a column and row sees, 0 to 255.
fn scene(settings: Settings, frame: FrameNo, x: u32, y: u32) -> u32
    requires range { range_fault settings ≡ None }
    requires column { x ≤ 1000 }
    requires row { y ≤ 1000 }
    ensures value { result ≡ scene_at settings frame.0 (channel_at x y) x y }
    ensures most { result ≤ 255 }
{
    if settings.pattern == 0 {
        settings.level
    } else if settings.pattern == 1 {
        if is_lit(x, y) { settings.level } else { 0 }
    } else {
        (x + y + frame.0 % 256) % 256
    }
}

/// The sensor's value at a column and row.
pub fn sensor_value(settings: Settings, frame: FrameNo, gain: u32, x: u32, y: u32) -> u16
    requires range { range_fault settings ≡ None }
    requires gain { gain ≡ (settings.exposure / 100000) * settings.iso }
    requires most { gain ≤ 1600000 }
    requires column { x ≤ 1000 }
    requires row { y ≤ 1000 }
    ensures { result ≡ value_of settings frame.0 x y }
{
    let light = scene(settings, frame, x, y) * gain / 2_500;
    (DARK + light.min(FULL)) as u16
}
