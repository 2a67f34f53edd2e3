//! The calls of an end in memory, some of which are to fail.
// The calls of an end over memory, of which some are to fail.
ghost use Rattle.std.specs.Prelude.{◌≡◌, ◌↔◌, [], OnOk, OnErr, IsOk, IsErr, IsTrue, Contains};
ghost use Rattle.io_edge.specs.Faults.{Rose, one_more};

use crate::Failed;
use crate::fault_count::FaultCount;
use std::marker::Model;

/// Counts the calls of an end, and the faults among them.
#[derive(Drop)]
pub(crate) struct CallCount {
    made: u64,
    failing: Vec<u32>,
    faults: FaultCount,
}

impl Model for CallCount {
    ghost use Rattle.io_edge.specs.Ends.{Calls};

    ghost Value = { Calls };

    ghost view = { λ c. record { made = c.made; failing = c.failing.items; faults = c.faults } };
}

impl CallCount {
    /// No call yet. The calls with these numbers, from 1, are to fail.
    pub(crate) fn new(failing: Vec<u32>) -> Self
        ensures { result ≡ record { made = 0; failing = failing.items; faults = 0 } }
    {
        CallCount {
            made: 0,
            failing,
            faults: FaultCount::new(),
        }
    }

    /// The calls so far.
    pub(crate) fn made(&self) -> u64
        ensures { result ≡ self.now.made }
    {
        self.made
    }

    /// Counts a call. `Failed`, a fault that it counts, exactly where this call is to fail.
    pub(crate) fn begin(&mut self) -> Result<(), Failed>
        ensures fails { IsErr result ↔ Contains self.old.failing (one_more self.old.made) }
        ensures ok { OnOk result (self.new ≡ record self.old { made = one_more self.old.made }) }
        ensures err { OnErr result (self.new ≡ record self.old {
          made = one_more self.old.made;
          faults = one_more self.old.faults;
        }) }
        ensures counted { OnErr result (Rose self.old.faults self.new.faults) }
    {
        self.made = self.made.saturating_add(1);
        if self.is_to_fail() {
            return Err(self.fault());
        }
        Ok(())
    }

    /// Counts a fault.
    pub(crate) fn fault(&mut self) -> Failed
        ensures value { self.new ≡ record self.old { faults = one_more self.old.faults } }
        ensures counted { Rose self.old.faults self.new.faults }
    {
        self.faults.note()
    }

    fn is_to_fail(&self) -> bool
        ensures { IsTrue result ↔ Contains self.now.failing self.now.made }
    {
        let call = self.made;
        self.failing.iter().any(|number| u64::from(*number) == call)
    }
}
