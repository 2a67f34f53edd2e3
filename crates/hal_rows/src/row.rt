//! The row of a request: what the rules read of it. `specs/Row.antt` says what stands in each field.

use cam_types::Listing;
use hal_model::HalTarget;

/// A target: whether it is back, ok, good, in error; orderly: back as one that the strict order counts; other: as such
/// a one that isn't ok.
#[derive(Clone, Copy)]
pub struct TargetRow {
    pub target: HalTarget,
    pub back: bool,
    pub filled: bool,
    pub good: bool,
    pub broken: bool,
    pub orderly: bool,
    pub other: bool,
}

/// A part of a request's metadata: its number, and whether it was seen.
#[derive(Clone, Copy)]
pub struct PartRow {
    pub number: u32,
    pub seen: bool,
}

/// The row of a request. `rank`: how many requests were begun before it. From `same` to `excused`: what stood at its
/// begin; the rest: what stands since. `notices`: the streams of its errors of buffers, each once. `before_flush`,
/// `flushed`: accepted before the flush that began last, before one that ended ok. `passed`: complete before a point.
#[derive(Drop)]
pub struct Row {
    pub frame: u32,
    pub rank: u32,
    pub targets: Listing<TargetRow>,
    pub parts: Listing<PartRow>,
    pub same: bool,
    pub initialized: bool,
    pub dead: bool,
    pub excused: bool,
    pub entered: bool,
    pub accepted: bool,
    pub refused: bool,
    pub said: bool,
    pub shutter: bool,
    pub failed: bool,
    pub result_error: bool,
    pub part_error: bool,
    pub unknown_notice: bool,
    pub last_part: bool,
    pub last_empty: bool,
    pub something: bool,
    pub sound: bool,
    pub notices: Listing<u32>,
    pub before_flush: bool,
    pub flushed: bool,
    pub passed: bool,
}
