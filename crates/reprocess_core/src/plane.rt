//! A plane that is made smaller by a whole factor, row by row.
ghost use Rattle.std.specs.Prelude.{◌≡◌, ℕ, ◌*◌, ◌<◌, ◌≤◌, length, slice_index};
ghost use Rattle.reprocess_model.specs.Reduce.{reduced_plane};

/// Writes a row of the bytes that stand `STEP` apart in a row of another plane.
fn write_row<const STEP: usize>(from: &[u8], row: &mut [u8])
    requires least { 1 ≤ STEP }
    requires columns { length from.now ≡ length row.old * STEP }
    ensures { (k : ℕ) → k < length row.new → slice_index row.new k ≡ slice_index from.now (k * STEP) }
{
    for i in 0..row.len() {
        row[i] = from[i * STEP];
    }
}

/// Writes a plane of so many columns and rows from one that has `STEP` times as many of each.
pub fn write_plane<const STEP: usize>(from: &[u8], width: usize, height: usize, bytes: &mut [u8])
    requires least { 1 ≤ STEP }
    requires some_columns { 1 ≤ width }
    requires some_rows { 1 ≤ height }
    requires columns { width * STEP ≤ 160 }
    requires len { length from.now ≡ width * STEP * (height * STEP) }
    requires most { length from.now ≤ 19200 }
    requires less { length bytes.old ≤ 19200 }
    requires room { length bytes.old ≡ width * height }
    ensures { bytes.new ≡ reduced_plane from.now (width * STEP) (height * STEP) width height }
{
    let wide = width * STEP;
    for y in 0..height {
        let start = y * STEP * wide;
        write_row::<STEP>(
            &from[start..start + wide],
            &mut bytes[y * width..y * width + width],
        );
    }
}
