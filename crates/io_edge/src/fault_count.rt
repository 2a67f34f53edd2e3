//! A count of faults that never wraps.
// How an end counts its faults.
ghost use Rattle.std.specs.Prelude.{◌≡◌};
ghost use Rattle.io_edge.specs.Faults.{Rose, one_more};

use crate::Failed;
use std::marker::Model;

/// The faults of an end, counted up to the last value of the counter.
#[derive(Drop)]
pub(crate) struct FaultCount {
    count: u64,
}

impl Model for FaultCount {
    ghost use Rattle.std.specs.Prelude.{ℕ};

    ghost Value = { ℕ };

    ghost view = { λ faults. faults.count };
}

impl FaultCount {
    pub(crate) fn new() -> Self
        ensures { result ≡ 0 }
    {
        FaultCount { count: 0 }
    }

    /// Counts one more.
    pub(crate) fn note(&mut self) -> Failed
        ensures value { self.new ≡ one_more self.old }
        ensures rose { Rose self.old self.new }
    {
        self.count = self.count.saturating_add(1);
        Failed
    }
}
