//! Parts lines of the sensor's values by lanes, 16 or 32 values at a time, and takes the darkness off them.
ghost use Rattle.std.specs.Prelude.{◌≡◌, ◌+◌, ◌*◌, ◌/◌, ◌%◌, ◌≤◌, length};
ghost use Rattle.std.specs.List.{All};
ghost use Rattle.picture_stages.specs.Cells.{IsLane};

use std::simd::prelude::*;

/// How far eight values of the sensor lie above darkness.
fn above_dark(values: u16x8) -> u16x8
    requires len { length values ≡ 8 }
    requires values { All (λ v. (64 ≤ v) × (v ≤ 1023)) values }
    ensures { IsLane (λ k. k) values result }
{
    values - u16x8::splat(64)
}

/// Parts 16 values into those at even places and those at odd ones.
pub fn part_twos(values: &[u16]) -> (u16x8, u16x8)
    requires len { length values.now ≡ 16 }
    requires values { All (λ v. (64 ≤ v) × (v ≤ 1023)) values.now }
    ensures evens { IsLane (λ k. k * 2) values.now result.0 }
    ensures odds { IsLane (λ k. k * 2 + 1) values.now result.1 }
{
    let first = u16x8::from_slice(&values[..8]);
    let second = u16x8::from_slice(&values[8..]);
    let (evens, odds) = first.deinterleave(second);
    (above_dark(evens), above_dark(odds))
}

/// Keeps of each four of 16 values the first two.
fn keep_pairs(values: &[u16]) -> u16x8
    requires len { length values.now ≡ 16 }
    requires values { All (λ v. (64 ≤ v) × (v ≤ 1023)) values.now }
    ensures { IsLane (λ k. k / 2 * 4 + k % 2) values.now result }
{
    let first = u16x8::from_slice(&values[..8]);
    let second = u16x8::from_slice(&values[8..]);
    above_dark(first.shuffle(second, [0, 1, 4, 5, 8, 9, 12, 13]))
}

/// Parts off the first and the second of each four of 32 values. That pairs are kept first, and lose the darkness before
/// they are parted, matters for the speed alone: they move as one.
pub fn part_fours(values: &[u16]) -> (u16x8, u16x8)
    requires len { length values.now ≡ 32 }
    requires values { All (λ v. (64 ≤ v) × (v ≤ 1023)) values.now }
    ensures firsts { IsLane (λ k. k * 4) values.now result.0 }
    ensures seconds { IsLane (λ k. k * 4 + 1) values.now result.1 }
{
    let pairs = keep_pairs(&values[..16]);
    let pairs_behind = keep_pairs(&values[16..32]);
    pairs.deinterleave(pairs_behind)
}
