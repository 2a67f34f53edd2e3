//! Writes all bytes to a sink.
// Writes a whole piece.
ghost use Rattle.std.specs.Prelude.{ℕ, ◌-◌, ◌≤◌, length, IsOk, OnOk, OnErr};
ghost use Rattle.io_edge.specs.Faults.{Counts};
ghost use Rattle.io_edge.specs.States.{Breaks, Writes};

use crate::{Failed, Sink};

/// Writes all the bytes, in as many writes as it takes. After `Failed` some of them, from the front,
/// may have been written, and not all.
pub fn write_all<K: Sink>(sink: &mut K, bytes: &[u8]) -> Result<(), Failed>
    ensures ok { OnOk result (Writes (K.state sink.old) (K.state sink.new) bytes.now) }
    ensures failed { OnErr result (Breaks (K.state sink.old) (K.state sink.new) bytes.now) }
    ensures faults { Counts result (K.state sink.old).faults (K.state sink.new).faults }
    ensures promised { (total : ℕ) → length bytes.now ≤ total → K.takes sink.old total
        → IsOk result × K.takes sink.new (total - length bytes.now) }
{
    let mut done = 0;
    while done < bytes.len() {
        done += sink.write(&bytes[done..])?;
    }
    Ok(())
}
