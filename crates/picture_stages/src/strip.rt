//! A strip of cells of the sensor, whose values and colours stand in lines of their own: so the work on them goes by
//! lanes, and what is read once serves the brightness and the differences.
ghost use Rattle.std.specs.Prelude.{◌≡◌, ℕ, ◌+◌, ◌*◌, ◌/◌, ◌%◌, ◌<◌, ◌≤◌, length, slice_index};
ghost use Rattle.std.specs.List.{All};
ghost use Rattle.cam_types.specs.Picture.{
  blue_of,
  chroma_blue,
  chroma_red,
  green_of,
  luma,
  red_of,
  scaled as scaled_of,
};
ghost use Rattle.picture_stages.specs.Cells.{HoldsColours, HoldsValues, at_place, half_place};

use crate::colour::{chroma_of, luma_of, scaled};
use crate::lanes::{part_fours, part_twos};
use std::simd::prelude::*;

/// The columns of the sensor.
const WIDTH: usize = 160;

/// What the filters of the cells gave above darkness, 0 to 959, the upper ones of all cells before the lower ones: at
/// the left of each cell red above green, at the right green above blue.
#[derive(Drop)]
pub struct Filters {
    pub left: [u16; 160],
    pub right: [u16; 160],
}

/// The colour of each cell, 0 to 255.
#[derive(Drop)]
pub struct Colours {
    pub red: [u16; 80],
    pub green: [u16; 80],
    pub blue: [u16; 80],
}

impl Filters {
    /// A strip that nothing was read into yet.
    pub fn new() -> Self
        ensures { HoldsValues result }
    {
        Filters {
            left: [0; 160],
            right: [0; 160],
        }
    }
}

impl Colours {
    /// A strip that nothing was read into yet.
    pub fn new() -> Self
        ensures { HoldsColours result }
    {
        Colours {
            red: [0; 80],
            green: [0; 80],
            blue: [0; 80],
        }
    }
}

/// Writes a block of eight values into a line.
fn put_block(block: u16x8, at: usize, line: &mut [u16; 160])
    requires len { length block ≡ 8 }
    requires block { All (λ v. v ≤ 959) block }
    requires at { at < 20 }
    requires line { All (λ v. v ≤ 959) line.old }
    ensures before { (k : ℕ) → k < at * 8 → slice_index line.new k ≡ slice_index line.old k }
    ensures here { (k : ℕ) → k < 8 → slice_index line.new (at * 8 + k) ≡ slice_index block k }
    ensures line { All (λ v. v ≤ 959) line.new }
{
    line[at * 8..at * 8 + 8].copy_from_slice(&block.to_array());
}

/// Parts the left and right filters of all cells of two rows of the sensor.
fn part_all(rows: &[u16], filters: &mut Filters)
    requires len { length rows.now ≡ 320 }
    requires values { All (λ v. (64 ≤ v) × (v ≤ 1023)) rows.now }
    requires filters { HoldsValues filters.old }
    ensures left { (k : ℕ) → k < 160 → slice_index filters.new.left k + 64 ≡ slice_index rows.now (k * 2) }
    ensures right { (k : ℕ) → k < 160 → slice_index filters.new.right k + 64 ≡ slice_index rows.now (k * 2 + 1) }
    ensures filters { HoldsValues filters.new }
{
    for block in 0..20 {
        let (left, right) = part_twos(&rows[block * 16..block * 16 + 16]);
        put_block(left, block, &mut filters.left);
        put_block(right, block, &mut filters.right);
    }
}

/// Parts the left and right filters of every second cell of two rows of the sensor, and behind them those of the rows
/// four further down: six rows are given.
fn part_half(rows: &[u16], filters: &mut Filters)
    requires len { length rows.now ≡ 960 }
    requires values { All (λ v. (64 ≤ v) × (v ≤ 1023)) rows.now }
    requires filters { HoldsValues filters.old }
    ensures left { (k : ℕ) → k < 160 → slice_index filters.new.left k + 64 ≡ slice_index rows.now (half_place k) }
    ensures right { (k : ℕ) → k < 160 → slice_index filters.new.right k + 64 ≡ slice_index rows.now (half_place k + 1) }
    ensures filters { HoldsValues filters.new }
{
    for part in 0..4 {
        let first = part % 2 * (4 * WIDTH) + part / 2 * WIDTH;
        let row = &rows[first..first + WIDTH];
        for block in 0..5 {
            let (left, right) = part_fours(&row[block * 32..block * 32 + 32]);
            put_block(left, part * 5 + block, &mut filters.left);
            put_block(right, part * 5 + block, &mut filters.right);
        }
    }
}

/// The colours of the cells: the mean of a cell's two greens stands for both.
fn colour_cells(filters: &Filters, colours: &mut Colours)
    requires filters { HoldsValues filters.now }
    requires colours { HoldsColours colours.old }
    ensures red { (k : ℕ) → k < 80 → slice_index colours.new.red k ≡ scaled_of (slice_index filters.now.left k + 64) }
    ensures green { (k : ℕ) → k < 80 → slice_index colours.new.green k ≡
        scaled_of ((slice_index filters.now.right k + slice_index filters.now.left (k + 80)) / 2 + 64) }
    ensures blue { (k : ℕ) → k < 80 →
        slice_index colours.new.blue k ≡ scaled_of (slice_index filters.now.right (k + 80) + 64) }
    ensures colours { HoldsColours colours.new }
{
    for i in 0..80 {
        colours.red[i] = scaled(filters.left[i]);
        colours.green[i] = scaled((filters.right[i] + filters.left[i + 80]) / 2);
        colours.blue[i] = scaled(filters.right[i + 80]);
    }
}

/// Reads the cells of two rows of the sensor: they are two columns apart.
pub fn read_all_cells(values: &[u16], y: usize, filters: &mut Filters, colours: &mut Colours)
    requires len { length values.now ≡ 19200 }
    requires values { All (λ v. (64 ≤ v) × (v ≤ 1023)) values.now }
    requires row { y < 119 }
    requires filters { HoldsValues filters.old }
    requires colours { HoldsColours colours.old }
    ensures red { (k : ℕ) → k < 80 → slice_index colours.new.red k ≡ red_of values.now (k * 2) y }
    ensures green { (k : ℕ) → k < 80 → slice_index colours.new.green k ≡ green_of values.now (k * 2) y }
    ensures blue { (k : ℕ) → k < 80 → slice_index colours.new.blue k ≡ blue_of values.now (k * 2) y }
    ensures filters { HoldsValues filters.new }
    ensures colours { HoldsColours colours.new }
{
    let first = y * WIDTH;
    part_all(&values[first..first + 2 * WIDTH], filters);
    colour_cells(filters, colours);
}

/// Reads every second cell of two rows of the sensor, which are four columns apart, and behind them those of the rows
/// four further down.
pub fn read_half_of_cells(values: &[u16], y: usize, filters: &mut Filters, colours: &mut Colours)
    requires len { length values.now ≡ 19200 }
    requires values { All (λ v. (64 ≤ v) × (v ≤ 1023)) values.now }
    requires row { y < 115 }
    requires filters { HoldsValues filters.old }
    requires colours { HoldsColours colours.old }
    ensures red { (k : ℕ) → k < 80 →
        slice_index colours.new.red k ≡ red_of values.now (k % 40 * 4) (k / 40 * 4 + y) }
    ensures green { (k : ℕ) → k < 80 →
        slice_index colours.new.green k ≡ green_of values.now (k % 40 * 4) (k / 40 * 4 + y) }
    ensures blue { (k : ℕ) → k < 80 →
        slice_index colours.new.blue k ≡ blue_of values.now (k % 40 * 4) (k / 40 * 4 + y) }
    ensures filters { HoldsValues filters.new }
    ensures colours { HoldsColours colours.new }
{
    let first = y * WIDTH;
    part_half(&values[first..first + 6 * WIDTH], filters);
    colour_cells(filters, colours);
}

/// Writes the brightness of the cells.
pub fn write_luma(colours: &Colours, bytes: &mut [u8])
    requires colours { HoldsColours colours.now }
    requires room { length bytes.old ≡ 80 }
    ensures { (k : ℕ) → k < 80 → slice_index bytes.new k ≡ at_place luma colours.now k }
{
    for i in 0..80 {
        bytes[i] = luma_of(colours.red[i], colours.green[i], colours.blue[i]);
    }
}

/// Writes the two differences of the first cells, as many as there is room for.
pub fn write_differences(colours: &Colours, blue: &mut [u8], red: &mut [u8])
    requires colours { HoldsColours colours.now }
    requires most { length blue.old ≤ 80 }
    requires same { length red.old ≡ length blue.old }
    ensures blue { (k : ℕ) → k < length blue.new → slice_index blue.new k ≡ at_place chroma_blue colours.now k }
    ensures red { (k : ℕ) → k < length red.new → slice_index red.new k ≡ at_place chroma_red colours.now k }
{
    for i in 0..blue.len() {
        let (blue_difference, red_difference) = chroma_of(
            colours.red[i],
            colours.green[i],
            colours.blue[i],
        );
        blue[i] = blue_difference;
        red[i] = red_difference;
    }
}
