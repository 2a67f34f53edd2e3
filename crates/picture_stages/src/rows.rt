//! The rows of a readout, as windows of one line.
ghost use Rattle.std.specs.Prelude.{◌≡◌, ℕ, ◌+◌, ◌*◌, ◌/◌, ◌%◌, ◌<◌, ◌≤◌, None, length, slice_index};
ghost use Rattle.cam_types.specs.Metadata.{range_fault};
ghost use Rattle.cam_types.specs.Picture.{readout, sensor_value as value_of};
ghost use Rattle.picture_stages.specs.Line.{line_width, IsLineOf, row_start as start_of};

use crate::scene::{gain_of, sensor_value};
use cam_types::{FrameNo, Settings};
use std::thread::{Threads, for_each_chunk_mut};

/// The values of a line: the rows of a readout are windows of one line.
const LINE_VALUES: u32 = 320;

/// The columns of the sensor.
const WIDTH: usize = 160;

/// The rows of the sensor.
pub const HEIGHT: usize = 120;

/// The column and row of a place of the line.
fn place_of(settings: Settings, place: u32) -> (u32, u32)
    requires { place < 320 }
    ensures column { result.0 ≡ place % line_width settings }
    ensures row { result.1 ≡ place / line_width settings }
    ensures left { result.0 < 320 }
    ensures upper { result.1 < 2 }
{
    if settings.pattern == 2 {
        (place, 0)
    } else {
        (place % 160, place / 160)
    }
}

/// The line of a frame: for the ramp a row of 320 columns, for the other patterns the first two rows.
fn line_of(settings: Settings, frame: FrameNo) -> [u16; 320]
    requires { range_fault settings ≡ None }
    ensures len { length result ≡ 320 }
    ensures values { IsLineOf settings frame.0 result }
{
    let gain = gain_of(settings);
    let mut line = [0; 320];
    for place in 0..LINE_VALUES {
        let (x, y) = place_of(settings, place);
        line[place as usize] = sensor_value(settings, frame, gain, x, y);
    }
    line
}

/// Where a row of the readout begins in the line: the ramp moves by a column with each row, and the other patterns
/// have two kinds of rows in turn.
fn row_start(settings: Settings, y: usize) -> usize
    requires { y < 120 }
    ensures value { result ≡ start_of settings y }
    ensures within { result ≤ 160 }
{
    if settings.pattern == 2 {
        y
    } else {
        y % 2 * WIDTH
    }
}

/// Writes whole rows of the readout, from the row `first` on.
fn write_rows(
    settings: Settings,
    frame: FrameNo,
    line: &[u16; 320],
    first: usize,
    values: &mut [u16],
)
    requires range { range_fault settings ≡ None }
    requires line_len { length line.now ≡ 320 }
    requires line { IsLineOf settings frame.0 line.now }
    requires whole { length values.old % 160 ≡ 0 }
    requires within { first + length values.old / 160 ≤ 120 }
    ensures { (k : ℕ) → k < length values.old →
        slice_index values.new k ≡ value_of settings frame.0 (k % 160) (k / 160 + first) }
{
    for y in 0..values.len() / WIDTH {
        let start = row_start(settings, y + first);
        values[y * WIDTH..y * WIDTH + WIDTH].copy_from_slice(&line[start..start + WIDTH]);
    }
}

/// Writes the readout of a frame.
pub fn write_readout(settings: Settings, frame: FrameNo, values: &mut [u16])
    requires range { range_fault settings ≡ None }
    requires len { length values.old ≡ 19200 }
    ensures { values.new ≡ readout settings frame.0 }
{
    let line = line_of(settings, frame);
    write_rows(settings, frame, &line, 0, values);
}

/// Writes the readout of a frame in so many bands of rows side by side. The last band has the fewest rows.
pub fn write_readout_bands<R: Threads + Sync>(
    rt: &R,
    settings: Settings,
    frame: FrameNo,
    bands: u32,
    values: &mut [u16],
)
    requires range { range_fault settings ≡ None }
    requires least { 1 ≤ bands }
    requires most { bands ≤ 8 }
    requires len { length values.old ≡ 19200 }
    ensures { values.new ≡ readout settings frame.0 }
{
    let line = line_of(settings, frame);
    let rows = HEIGHT.div_ceil(bands as usize);
    for_each_chunk_mut(
        rt,
        values,
        rows * WIDTH,
        &|start: usize, band: &mut [u16]|
            requires { (range_fault settings ≡ None)
                × (length line ≡ 320)
                × IsLineOf settings frame.0 line
                × (length band.old % 160 ≡ 0)
                × (start / 160 + length band.old / 160 ≤ 120) }
            ensures { (k : ℕ) → k < length band.old →
                slice_index band.new k ≡
                value_of settings frame.0 (k % 160) (k / 160 + start / 160) }
        { write_rows(settings, frame, &line, start / WIDTH, band) },
    );
}
