//! The limits of packed metadata.
/// The most elements of an entry.
pub const COUNT_LIMIT: u32 = 1_024;

/// The most entries of a list.
pub const ENTRY_LIMIT: u32 = 64;

/// The most bytes of a data area.
pub const AREA_LIMIT: u32 = 4_096;
