//! Rows of a picture of the sensor's size, in which a cell stands for two places of two rows.
ghost use Rattle.std.specs.Prelude.{◌≡◌, ℕ, ◌+◌, ◌*◌, ◌/◌, ◌%◌, ◌<◌, ◌≤◌, length, slice_index};
ghost use Rattle.std.specs.List.{All};
ghost use Rattle.cam_types.specs.Picture.{chroma_blue, chroma_red, luma};
ghost use Rattle.picture_stages.specs.Cells.{AreChromaRows, AreWideRows, HoldsColours, HoldsValues, at_cell};

use crate::strip::{Colours, Filters, read_all_cells, write_differences, write_luma};

/// Writes every byte twice, side by side.
pub fn write_twice(all: &[u8], twice: &mut [u8])
    requires len { length all.now ≡ 80 }
    requires room { length twice.old ≡ 160 }
    ensures { (k : ℕ) → k < 160 → slice_index twice.new k ≡ slice_index all.now (k / 2) }
{
    for i in 0..80 {
        twice[2 * i] = all[i];
        twice[2 * i + 1] = all[i];
    }
}

/// Writes every byte twice, side by side, in two rows.
fn write_both_rows(all: &[u8], rows: &mut [u8])
    requires len { length all.now ≡ 80 }
    requires room { length rows.old ≡ 320 }
    ensures { (k : ℕ) → k < 320 → slice_index rows.new k ≡ slice_index all.now (k % 160 / 2) }
{
    let (first, second) = rows.split_at_mut(160);
    write_twice(all, first);
    write_twice(all, second);
}

/// Writes two rows of the plane Y, and the row of the planes Cb and Cr that has their cells.
fn write_wide_pair(
    values: &[u16],
    y: usize,
    filters: &mut Filters,
    colours: &mut Colours,
    luma_rows: &mut [u8],
    blue: &mut [u8],
    red: &mut [u8],
)
    requires len { length values.now ≡ 19200 }
    requires values { All (λ v. (64 ≤ v) × (v ≤ 1023)) values.now }
    requires row { y < 119 }
    requires filters { HoldsValues filters.old }
    requires colours { HoldsColours colours.old }
    requires room { length luma_rows.old ≡ 320 }
    requires blue_room { length blue.old ≡ 80 }
    requires red_room { length red.old ≡ 80 }
    ensures luma { (k : ℕ) → k < 320 →
        slice_index luma_rows.new k ≡ at_cell luma values.now (k % 160 / 2 * 2) y }
    ensures blue { (k : ℕ) → k < 80 → slice_index blue.new k ≡ at_cell chroma_blue values.now (k * 2) y }
    ensures red { (k : ℕ) → k < 80 → slice_index red.new k ≡ at_cell chroma_red values.now (k * 2) y }
    ensures filters { HoldsValues filters.new }
    ensures colours { HoldsColours colours.new }
{
    read_all_cells(values, y, filters, colours);
    let mut once = [0; 80];
    write_luma(colours, &mut once);
    write_both_rows(&once, luma_rows);
    write_differences(colours, blue, red);
}

/// Writes a band of a picture of the sensor's size: pairs of rows of the plane Y from the pair `first` on, and the row
/// of the planes Cb and Cr that goes with each.
pub fn write_band(
    values: &[u16],
    first: usize,
    pairs: usize,
    luma: &mut [u8],
    blue: &mut [u8],
    red: &mut [u8],
)
    requires len { length values.now ≡ 19200 }
    requires values { All (λ v. (64 ≤ v) × (v ≤ 1023)) values.now }
    requires within { first + pairs ≤ 60 }
    requires luma_room { length luma.old ≡ pairs * 320 }
    requires blue_room { length blue.old ≡ pairs * 80 }
    requires red_room { length red.old ≡ pairs * 80 }
    ensures luma { AreWideRows values.now first luma.new }
    ensures blue { AreChromaRows chroma_blue values.now 2 80 first blue.new }
    ensures red { AreChromaRows chroma_red values.now 2 80 first red.new }
{
    let mut filters = Filters::new();
    let mut colours = Colours::new();
    for pair in 0..pairs {
        write_wide_pair(
            values,
            (pair + first) * 2,
            &mut filters,
            &mut colours,
            &mut luma[pair * 320..pair * 320 + 320],
            &mut blue[pair * 80..pair * 80 + 80],
            &mut red[pair * 80..pair * 80 + 80],
        );
    }
}
