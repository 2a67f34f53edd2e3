//! The brightness of a frame, measured on its picture.
ghost use Rattle.std.specs.Prelude.{◌≡◌, ◌/◌, ◌≤◌, IfOk, None, length, sum, take};
ghost use Rattle.cam_types.specs.Metadata.{range_fault};
ghost use Rattle.auto_call.specs.Brightness.{at_step, luma_plane, mean};

use cam_types::{BufferId, FrameNo, NoMemory, PixelBuf, Readout, Settings};
use picture_stages::{SensorJob, a_readout_lies_between_dark_and_full, draw_yuv};
use std::alloc::Global;

/// The bytes of the plane Y.
const LUMA_BYTES: usize = 1_200;

/// The bytes of the picture of 40 x 30 pixels.
const PICTURE_BYTES: u32 = 1_800;

/// Nanoseconds in a step of exposure.
const STEP: u64 = 100_000;

/// The settings with the exposure of a step.
pub fn at_step(settings: Settings, step: u32) -> Settings
    requires least { 1 ≤ step }
    requires most { step ≤ 1000 }
    ensures value { result ≡ at_step settings step }
    ensures range { range_fault settings ≡ None → range_fault result ≡ None }
{
    Settings {
        exposure: u64::from(step) * STEP,
        ..settings
    }
}

/// The sum of the bytes of a plane Y.
fn sum_of(plane: &[u8]) -> u32
    requires { length plane.now ≤ 1200 }
    ensures { result ≡ sum plane.now }
{
    plane.iter().map(|luma| u32::from(*luma)).sum()
}

/// The mean of the plane Y of a picture, rounded down.
fn mean_of(picture: &[u8]) -> u32
    requires { length picture.now ≡ 1800 }
    ensures { result ≡ sum (take 1200 picture.now) / 1200 }
{
    let (plane, _) = picture.split_at(LUMA_BYTES);
    sum_of(plane) / LUMA_BYTES as u32
}

/// The mean brightness of a frame that is captured with the settings, which are in range: the sensor is read, and the
/// plane Y of the YUV picture of 40 x 30 pixels averaged, rounded down. It fails only for want of memory.
#[tactic(auto, unfolding(crate::specs::Brightness::mean, crate::specs::Brightness::luma_plane))]
pub fn measure(alloc: Global, settings: Settings, frame: FrameNo) -> Result<u32, NoMemory>
    requires { range_fault settings ≡ None }
    ensures { IfOk result (λ measured. measured ≡ mean settings frame.0) }
{
    let scratch = Readout::new(alloc)?;
    let block = vec![in alloc; 0; PICTURE_BYTES as usize]?;
    let exposed = SensorJob::new(frame, settings, scratch).expose();
    let (_, _, readout) = exposed.into_parts();
    a_readout_lies_between_dark_and_full();
    let mut picture = PixelBuf::over(block, BufferId(0), PICTURE_BYTES);
    draw_yuv(&readout, 40, 30, &mut picture);
    let mean = mean_of(picture.bytes());
    let _block = picture.into_block();
    Ok(mean)
}
