//! What bytes are written to.
// What bytes are written to.
ghost use Rattle.std.specs.Prelude.{◌≡◌, ◌≤◌, ◌<◌, ◌-◌, ℕ, length, IfOk, IsOkAnd};
ghost use Rattle.std.specs.Io.KnownBytes.{WriteAppends};
ghost use Rattle.io_edge.specs.Faults.{Counts};
ghost use Rattle.io_edge.specs.States.{SinkState};

use crate::Failed;

/// What bytes are written to.
pub trait Sink {
    /// What was written, where the sink tells it, and how many faults it has counted.
    ghost state: { Self → SinkState };

    /// It takes the next so many bytes without a fault. A sink that promises nothing leaves it out.
    ghost takes: { Self → ℕ → Type 0 } = { λ _ _. ⊥ };

    /// Writes the front of `bytes` and gives the number of bytes written, at least one where there is
    /// one. `Failed` comes only with a fault that is counted, and writes nothing. To take no byte of
    /// some is a fault.
    fn write(&mut self, bytes: &[u8]) -> Result<usize, Failed>
        ensures bound { IfOk result (λ count. count ≤ length bytes.now) }
        ensures progress { IfOk result (λ count. 0 < length bytes.now → 0 < count) }
        ensures bytes { WriteAppends (state self.old).written (state self.new).written result bytes.now }
        ensures faults { Counts result (state self.old).faults (state self.new).faults }
        ensures promised { (total : ℕ) → length bytes.now ≤ total → takes self.old total
            → IsOkAnd result (λ count. takes self.new (total - count)) };
}
