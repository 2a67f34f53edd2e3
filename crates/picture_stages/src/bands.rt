//! Bands of a picture of the sensor's size, which are written side by side.
ghost use Rattle.std.specs.Prelude.{◌≡◌, ◌+◌, ◌*◌, ◌/◌, ◌<◌, ◌≤◌, length};
ghost use Rattle.std.specs.List.{All};
ghost use Rattle.cam_types.specs.Picture.{chroma_blue, chroma_red};
ghost use Rattle.picture_stages.specs.Cells.{AreWideRows, AreChromaRows, HaveRoomFor, IsBand, IsReadout};
ghost use denote.Param.Send.{IsSync};

use crate::wide::write_band;
use std::thread::{Threads, join_mut};

/// How many of the pairs of rows the front half of so many bands has.
fn front_pairs(bands: u32, pairs: usize) -> usize
    requires { 0 < bands }
    ensures value { result ≡ pairs / bands * (bands / 2) }
    ensures within { result ≤ pairs }
{
    pairs / bands as usize * (bands / 2) as usize
}

/// Writes what `write_band` writes, in so many bands side by side.
pub fn write_bands<R: Threads + Sync>(
    rt: &R,
    bands: u32,
    values: &[u16],
    first: usize,
    pairs: usize,
    luma: &mut [u8],
    blue: &mut [u8],
    red: &mut [u8],
)
    requires len { length values.now ≡ 19200 }
    requires values { All (λ v. (64 ≤ v) × (v ≤ 1023)) values.now }
    requires within { first + pairs ≤ 60 }
    requires luma_room { length luma.old ≡ pairs * 320 }
    requires blue_room { length blue.old ≡ pairs * 80 }
    requires red_room { length red.old ≡ pairs * 80 }
    ensures luma { AreWideRows values.now first luma.new }
    ensures blue { AreChromaRows chroma_blue values.now 2 80 first blue.new }
    ensures red { AreChromaRows chroma_red values.now 2 80 first red.new }
{
    if bands < 2 {
        write_band(values, first, pairs, luma, blue, red);
        return;
    }
    let before = bands / 2;
    let after = bands - before;
    let front = front_pairs(bands, pairs);
    let (front_luma, back_luma) = luma.split_at_mut(front * 320);
    let (front_blue, back_blue) = blue.split_at_mut(front * 80);
    let (front_red, back_red) = red.split_at_mut(front * 80);
    let middle = first + front;
    let back = pairs - front;
    join_mut(
        rt,
        &mut ||
            requires { IsSync R.row × IsReadout values.now × (first + front ≤ 60)
                × HaveRoomFor front front_luma.now front_blue.now front_red.now }
            ensures { IsBand values.entry.now first front_luma.exit.now front_blue.exit.now front_red.exit.now }
        {
            write_bands(
                rt, before, values, first, front, front_luma, front_blue, front_red,
            )
        },
        &mut ||
            requires { IsSync R.row × IsReadout values.now × (middle + back ≤ 60)
                × HaveRoomFor back back_luma.now back_blue.now back_red.now }
            ensures { IsBand values.entry.now middle back_luma.exit.now back_blue.exit.now back_red.exit.now }
        {
            write_bands(
                rt, after, values, middle, back, back_luma, back_blue, back_red,
            )
        },
    );
}
