//! What bytes are read from.
// What bytes are read from.
ghost use Rattle.std.specs.Prelude.{◌≡◌, ◌≤◌, ℕ, List, Option, length, IfOk, IsOk};
ghost use Rattle.std.specs.Io.KnownBytes.{ReadConsumes};
ghost use Rattle.io_edge.specs.Faults.{Counts};

/// An end failed, and counted the fault.
#[derive(Clone, Copy, Debug, PartialEq, Eq)]
pub struct Failed;

/// What bytes are read from.
pub trait Source {
    /// The bytes that are left, where the source tells them.
    ghost left: { Self → Option (List ℕ) };

    /// How many faults it has counted.
    ghost faults: { Self → ℕ };

    /// No read fails from here on. A source that promises nothing leaves it out.
    ghost never_fails: { Self → Type 0 } = { λ _. ⊥ };

    /// Reads the next bytes into the front of `buf` and gives their number. For a `buf` with room, 0
    /// is the end of the input. `Failed` comes only with a fault that is counted, and takes nothing.
    fn read(&mut self, buf: &mut [u8]) -> Result<usize, Failed>
        ensures bound { IfOk result (λ count. count ≤ length buf.new) }
        ensures bytes { ReadConsumes (left self.old) (left self.new) result buf.new }
        ensures faults { Counts result (faults self.old) (faults self.new) }
        ensures promised { never_fails self.old → IsOk result × never_fails self.new };
}
