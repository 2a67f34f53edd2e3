//! Pictures of half and of a quarter of the sensor's size, in whose planes each place has a cell of its own.
ghost use Rattle.std.specs.Prelude.{◌≡◌, ℕ, ◌+◌, ◌*◌, ◌/◌, ◌%◌, ◌<◌, ◌≤◌, length, slice_index};
ghost use Rattle.std.specs.List.{All};
ghost use Rattle.cam_types.specs.Picture.{chroma_blue, chroma_red, luma, plane};
ghost use Rattle.picture_stages.specs.Cells.{HoldsColours, HoldsValues, at_cell, at_place};

use crate::strip::{
    Colours, Filters, read_all_cells, read_half_of_cells, write_differences, write_luma,
};

/// Takes every second byte, the first among them.
pub fn take_seconds(all: &[u8], seconds: &mut [u8])
    requires len { length all.now ≡ length seconds.old * 2 }
    ensures { (k : ℕ) → k < length seconds.new → slice_index seconds.new k ≡ slice_index all.now (k * 2) }
{
    for i in 0..seconds.len() {
        seconds[i] = all[i * 2];
    }
}

/// Writes the two differences of every second cell, the first among them.
fn write_second_differences(colours: &Colours, blue: &mut [u8], red: &mut [u8])
    requires colours { HoldsColours colours.now }
    requires most { length blue.old ≤ 40 }
    requires same { length red.old ≡ length blue.old }
    ensures blue { (k : ℕ) → k < length blue.new →
        slice_index blue.new k ≡ at_place chroma_blue colours.now (k * 2) }
    ensures red { (k : ℕ) → k < length red.new → slice_index red.new k ≡ at_place chroma_red colours.now (k * 2) }
{
    let count = blue.len() * 2;
    let mut blues = [0; 80];
    let mut reds = [0; 80];
    write_differences(colours, &mut blues[..count], &mut reds[..count]);
    take_seconds(&blues[..count], blue);
    take_seconds(&reds[..count], red);
}

/// Writes two rows of the plane Y of a picture of half the sensor's size, and the row of the planes Cb and Cr that has
/// the cells of the first.
fn write_half_pair(
    values: &[u16],
    y: usize,
    filters: &mut Filters,
    colours: &mut Colours,
    luma_rows: &mut [u8],
    blue: &mut [u8],
    red: &mut [u8],
)
    requires len { length values.now ≡ 19200 }
    requires values { All (λ v. (64 ≤ v) × (v ≤ 1023)) values.now }
    requires row { y < 117 }
    requires filters { HoldsValues filters.old }
    requires colours { HoldsColours colours.old }
    requires room { length luma_rows.old ≡ 160 }
    requires blue_room { length blue.old ≡ 40 }
    requires red_room { length red.old ≡ 40 }
    ensures luma { (k : ℕ) → k < 160 →
        slice_index luma_rows.new k ≡ at_cell luma values.now (k % 80 * 2) (k / 80 * 2 + y) }
    ensures blue { (k : ℕ) → k < 40 → slice_index blue.new k ≡ at_cell chroma_blue values.now (k * 4) y }
    ensures red { (k : ℕ) → k < 40 → slice_index red.new k ≡ at_cell chroma_red values.now (k * 4) y }
    ensures filters { HoldsValues filters.new }
    ensures colours { HoldsColours colours.new }
{
    let (first, second) = luma_rows.split_at_mut(80);
    read_all_cells(values, y, filters, colours);
    write_luma(colours, first);
    write_second_differences(colours, blue, red);
    read_all_cells(values, y + 2, filters, colours);
    write_luma(colours, second);
}

/// Writes two rows of the plane Y of a picture of a quarter of the sensor's size, and the row of the planes Cb and Cr
/// that has the cells of the first.
fn write_quarter_pair(
    values: &[u16],
    y: usize,
    filters: &mut Filters,
    colours: &mut Colours,
    luma_rows: &mut [u8],
    blue: &mut [u8],
    red: &mut [u8],
)
    requires len { length values.now ≡ 19200 }
    requires values { All (λ v. (64 ≤ v) × (v ≤ 1023)) values.now }
    requires row { y < 115 }
    requires filters { HoldsValues filters.old }
    requires colours { HoldsColours colours.old }
    requires room { length luma_rows.old ≡ 80 }
    requires blue_room { length blue.old ≡ 20 }
    requires red_room { length red.old ≡ 20 }
    ensures luma { (k : ℕ) → k < 80 →
        slice_index luma_rows.new k ≡ at_cell luma values.now (k % 40 * 4) (k / 40 * 4 + y) }
    ensures blue { (k : ℕ) → k < 20 → slice_index blue.new k ≡ at_cell chroma_blue values.now (k * 8) y }
    ensures red { (k : ℕ) → k < 20 → slice_index red.new k ≡ at_cell chroma_red values.now (k * 8) y }
    ensures filters { HoldsValues filters.new }
    ensures colours { HoldsColours colours.new }
{
    read_half_of_cells(values, y, filters, colours);
    write_luma(colours, luma_rows);
    write_second_differences(colours, blue, red);
}

/// Writes the three planes of the picture of half the sensor's size.
pub fn write_half_planes(values: &[u16], luma_plane: &mut [u8], blue: &mut [u8], red: &mut [u8])
    requires len { length values.now ≡ 19200 }
    requires values { All (λ v. (64 ≤ v) × (v ≤ 1023)) values.now }
    requires room { length luma_plane.old ≡ 4800 }
    requires blue_room { length blue.old ≡ 1200 }
    requires red_room { length red.old ≡ 1200 }
    ensures luma { luma_plane.new ≡ plane (λ x y. at_cell luma values.now (x * 2) (y * 2)) 80 60 }
    ensures blue { blue.new ≡ plane (λ x y. at_cell chroma_blue values.now (x * 4) (y * 4)) 40 30 }
    ensures red { red.new ≡ plane (λ x y. at_cell chroma_red values.now (x * 4) (y * 4)) 40 30 }
{
    let mut filters = Filters::new();
    let mut colours = Colours::new();
    for pair in 0..30 {
        write_half_pair(
            values,
            pair * 4,
            &mut filters,
            &mut colours,
            &mut luma_plane[pair * 160..pair * 160 + 160],
            &mut blue[pair * 40..pair * 40 + 40],
            &mut red[pair * 40..pair * 40 + 40],
        );
    }
}

/// Writes the three planes of the picture of a quarter of the sensor's size.
pub fn write_quarter_planes(values: &[u16], luma_plane: &mut [u8], blue: &mut [u8], red: &mut [u8])
    requires len { length values.now ≡ 19200 }
    requires values { All (λ v. (64 ≤ v) × (v ≤ 1023)) values.now }
    requires room { length luma_plane.old ≡ 1200 }
    requires blue_room { length blue.old ≡ 300 }
    requires red_room { length red.old ≡ 300 }
    ensures luma { luma_plane.new ≡ plane (λ x y. at_cell luma values.now (x * 4) (y * 4)) 40 30 }
    ensures blue { blue.new ≡ plane (λ x y. at_cell chroma_blue values.now (x * 8) (y * 8)) 20 15 }
    ensures red { red.new ≡ plane (λ x y. at_cell chroma_red values.now (x * 8) (y * 8)) 20 15 }
{
    let mut filters = Filters::new();
    let mut colours = Colours::new();
    for pair in 0..15 {
        write_quarter_pair(
            values,
            pair * 8,
            &mut filters,
            &mut colours,
            &mut luma_plane[pair * 80..pair * 80 + 80],
            &mut blue[pair * 20..pair * 20 + 20],
            &mut red[pair * 20..pair * 20 + 20],
        );
    }
}
