//! The partial results of a frame.
/// One of the three partial results of a frame.
#[derive(Clone, Copy, Debug, PartialEq, Eq)]
pub enum PartialResult {
    /// The first.
    Look { pattern: u8, level: u32 },
    /// The second; the exposure is in nanoseconds.
    Light { exposure: u64, iso: u32 },
    /// The third: the time of the shutter, in nanoseconds.
    Time { timestamp: u64 },
}
