//! The packed form of a partial result, and what it is read as.
ghost use Rattle.std.specs.Prelude.{◌≡◌, ◌≢◌, ◌-◌, ◌++◌, length, replicate, IfSome, IfNone};
ghost use Rattle.cam_types.specs.declared.partial_result.PartialResult.{PartialResult as APart};
ghost use Rattle.metadata.specs.Spelling.{bytes_of};
ghost use Rattle.metadata.specs.Parts.{part_entries, part_in, look_in, light_in, time_in, part_number, PartFits};

use crate::Packed;
use crate::number::{byte_at, int32_at, int64_at};
use crate::rule::{EXPOSURE, LEVEL, PATTERN, SENSITIVITY, TIMESTAMP};
use cam_types::PartialResult;

/// The most bytes that the packed form of a part has.
pub const PART_BYTES: usize = 56;

/// The packed form of a part: the first `used` of the bytes. Zeros follow it.
#[derive(Clone, Copy, PartialEq, Eq)]
pub struct PartBytes {
    pub used: u32,
    pub bytes: [u8; PART_BYTES],
}

#[tactic(auto, unfolding(crate::specs::Spelling::bytes_of, crate::specs::Spelling::entry_bytes))]
fn look_bytes(pattern: u8, level: u32) -> [u8; PART_BYTES]
    ensures { result ≡ bytes_of (part_entries (APart.Look pattern level)) ++ replicate 8 0 }
{
    let l = level.to_le_bytes();
    [
        1, 0, 0, 0, 2, 0, 0, 0, 0, 0, 0, 0, 48, 0, 0, 0, // the header
        0, 0, 0, 0x80, 1, 0, 0, 0, pattern, 0, 0, 0, 0, 0, 0, 0, // the pattern
        1, 0, 0, 0x80, 1, 0, 0, 0, l[0], l[1], l[2], l[3], 1, 0, 0, 0, // the level
        0, 0, 0, 0, 0, 0, 0, 0, // past the form
    ]
}

#[tactic(auto, unfolding(crate::specs::Spelling::bytes_of, crate::specs::Spelling::entry_bytes))]
fn light_bytes(exposure: u64, iso: u32) -> [u8; PART_BYTES]
    ensures { result ≡ bytes_of (part_entries (APart.Light exposure iso)) }
{
    let e = exposure.to_le_bytes();
    let i = iso.to_le_bytes();
    [
        1, 0, 0, 0, 2, 0, 0, 0, 8, 0, 0, 0, 56, 0, 0, 0, // the header
        2, 0, 0, 0x80, 1, 0, 0, 0, 0, 0, 0, 0, 3, 0, 0, 0, // the exposure, in the data area
        3, 0, 0, 0x80, 1, 0, 0, 0, i[0], i[1], i[2], i[3], 1, 0, 0, 0, // the sensitivity
        e[0], e[1], e[2], e[3], e[4], e[5], e[6], e[7], // the data area
    ]
}

#[tactic(auto, unfolding(crate::specs::Spelling::bytes_of, crate::specs::Spelling::entry_bytes))]
fn time_bytes(timestamp: u64) -> [u8; PART_BYTES]
    ensures { result ≡ bytes_of (part_entries (APart.Time timestamp)) ++ replicate 16 0 }
{
    let t = timestamp.to_le_bytes();
    [
        1, 0, 0, 0, 1, 0, 0, 0, 8, 0, 0, 0, 40, 0, 0, 0, // the header
        4, 0, 0, 0x80, 1, 0, 0, 0, 0, 0, 0, 0, 3, 0, 0, 0, // the timestamp, in the data area
        t[0], t[1], t[2], t[3], t[4], t[5], t[6], t[7], // the data area
        0, 0, 0, 0, 0, 0, 0, 0, 0, 0, 0, 0, 0, 0, 0, 0, // past the form
    ]
}

/// The packed form of a part, with no memory taken.
#[tactic(auto, unfolding(crate::specs::Spelling::bytes_of, crate::specs::Spelling::entry_bytes))]
pub fn part_bytes(part: PartialResult) -> PartBytes
    requires { PartFits part }
    ensures used { result.used ≡ length (bytes_of (part_entries part)) }
    ensures bytes { result.bytes ≡ bytes_of (part_entries part) ++ replicate (PART_BYTES - result.used) 0 }
{
    match part {
        PartialResult::Look { pattern, level } => PartBytes {
            used: 48,
            bytes: look_bytes(pattern, level),
        },
        PartialResult::Light { exposure, iso } => PartBytes {
            used: 56,
            bytes: light_bytes(exposure, iso),
        },
        PartialResult::Time { timestamp } => PartBytes {
            used: 40,
            bytes: time_bytes(timestamp),
        },
    }
}

fn look_of(packed: &Packed) -> Option<PartialResult>
    ensures part { result ≡ look_in packed.now }
    ensures some { IfSome result (λ part. (part_number part ≡ 1) × (packed.now ≡ part_entries part)) }
{
    let pattern = byte_at(packed, PATTERN)?;
    let level = int32_at(packed, LEVEL)?;
    if packed.entries().len() == 2 {
        Some(PartialResult::Look { pattern, level })
    } else {
        None
    }
}

fn light_of(packed: &Packed) -> Option<PartialResult>
    ensures part { result ≡ light_in packed.now }
    ensures some { IfSome result (λ part. (part_number part ≡ 2) × (packed.now ≡ part_entries part)) }
{
    let exposure = int64_at(packed, EXPOSURE)?;
    let iso = int32_at(packed, SENSITIVITY)?;
    if packed.entries().len() == 2 {
        Some(PartialResult::Light { exposure, iso })
    } else {
        None
    }
}

fn time_of(packed: &Packed) -> Option<PartialResult>
    ensures part { result ≡ time_in packed.now }
    ensures some { IfSome result (λ part. (part_number part ≡ 3) × (packed.now ≡ part_entries part)) }
{
    let timestamp = int64_at(packed, TIMESTAMP)?;
    if packed.entries().len() == 1 {
        Some(PartialResult::Time { timestamp })
    } else {
        None
    }
}

/// Part `k` of a frame's metadata, where the entries are those of that part.
#[tactic(auto, unfolding(crate::specs::Parts::part_in))]
pub fn part_of(k: u8, packed: &Packed) -> Option<PartialResult>
    ensures part { result ≡ part_in k packed.now }
    ensures some { IfSome result (λ part. (part_number part ≡ k) × (packed.now ≡ part_entries part)) }
    ensures none { IfNone result ((part : APart) → part_number part ≡ k → packed.now ≢ part_entries part) }
{
    match k {
        1 => look_of(packed),
        2 => light_of(packed),
        3 => time_of(packed),
        _ => None,
    }
}
