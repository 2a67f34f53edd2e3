//! How far a search is.

/// How far a search is. Exposures are in steps of 100,000 ns.
#[derive(Clone, Copy)]
pub enum AeState {
    /// The least exposure that is bright enough lies from `low` to `high`, of which 1,001 stands for none.
    Searching { low: u32, high: u32 },
    /// It is this one.
    Locked { exposure: u32 },
    /// No exposure is bright enough.
    AtLimit,
}
