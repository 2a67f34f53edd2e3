//! The limits and fixed numbers of the camera.
/// The most bytes that a script's text may have.
pub const SCRIPT_BYTES: usize = 65_536;

/// The most commands in a script, with an added `close`.
pub const COMMAND_LIMIT: u32 = 512;

/// The most items of a `burst`.
pub const BURST_LIMIT: u32 = 32;

/// The most items of a `repeat`.
pub const REPEAT_LIMIT: u32 = 8;

/// The most targets written in an item.
pub const TARGET_LIMIT: u8 = 8;

/// The most streams written in a `configure`.
pub const SPEC_LIMIT: u32 = 16;

/// The most that all `await` commands of a script may ask for together.
pub const AWAITED_LIMIT: u64 = 16_384;

/// The most fault lines in a script.
pub const FAULT_LIMIT: u32 = 64;

/// The most picks in a script.
pub const PICK_LIMIT: u32 = 8_192;

/// The most items that wait in the queue.
pub const QUEUE_LIMIT: u32 = 256;

/// The most streams of an accepted configuration.
pub const STREAM_LIMIT: u32 = 4;

/// The most that each number of a device's profile may be.
pub const PROFILE_LIMIT: u32 = 16;

/// The most frames that are open at once, where a script names no profile.
pub const FRAME_DEPTH: u32 = 6;

/// The number of partial results that a frame has.
pub const PARTIAL_RESULT_COUNT: u8 = 3;

/// The most buffers of a RAW16 stream at the device, where a script names no profile.
pub const RAW_BUFFERS: u32 = 3;

/// The most buffers of a YUV stream at the device, where a script names no profile.
pub const YUV_BUFFERS: u32 = 4;

/// The most RAW16 streams of a configuration.
pub const RAW_STREAMS: usize = 1;

/// The most YUV streams of a configuration.
pub const YUV_STREAMS: usize = 3;

/// The buffers that a stream's pool has beside those that may be at the device.
pub const SPARE_BUFFERS: u32 = 2;

/// How many repeating frames may be sent after a call, beside those that an `await` asks for.
pub const REPEATING_AHEAD: u32 = 64;

/// The time of the first shutter, in nanoseconds.
pub const FIRST_SHUTTER: u64 = 1_000_000_000;

/// The least time from one shutter to the next, in nanoseconds.
pub const FRAME_TIME: u64 = 33_333_333;

/// The columns of the sensor.
pub const SENSOR_WIDTH: u32 = 160;

/// The rows of the sensor.
pub const SENSOR_HEIGHT: u32 = 120;

/// The values of a readout, row by row.
pub const SENSOR_VALUES: usize = 19_200;

/// The bytes of a block that a RAW16 picture fits.
pub const RAW_BLOCK: usize = 38_400;

/// The bytes of a block that the largest YUV picture fits.
pub const YUV_BLOCK: usize = 28_800;
