//! Cameras, and what clients ask.
use crate::ArbiterLine;
use cam_types::Listing;

/// The lines, the first one first.
pub type LineList = Listing<ArbiterLine>;

/// What a text asks for: 128 lines at most, each within its ranges.
#[derive(Drop)]
pub struct ArbiterText {
    /// How many cameras there are, 1 to 4.
    pub cameras: u32,
    pub lines: LineList,
}
