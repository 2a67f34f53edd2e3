//! Reads a source to its end, or to a limit.
// Reads a source to its end.
ghost use Rattle.std.specs.Prelude.{◌≡◌, ℕ, List, IfOk, IsErrOf};
ghost use Rattle.std.specs.Io.KnownBytes.{Consumes};
ghost use Rattle.io_edge.specs.Reading.{IsAnswer, IsTaken, ReadCounts};
ghost use Rattle.io_edge.specs.declared.reading.ReadFault.TheVariants.{Failed as FailedFault, NoMemory as NoMemoryFault};

use crate::{Failed, Source};
use std::alloc::{AllocError, Global};

/// The most that is read at once, in bytes.
const PIECE: usize = 4096;

/// What was read.
#[derive(Drop)]
pub enum ReadBytes {
    /// All the bytes.
    Whole(Vec<u8>),
    /// There are more bytes than the limit allows.
    TooLong,
}

/// Why nothing was read.
#[derive(Clone, Copy, Debug, PartialEq, Eq)]
pub enum ReadFault {
    /// The source failed.
    Failed,
    /// There was no memory for the bytes.
    NoMemory,
}

impl From<Failed> for ReadFault {
    ghost from_gives = { λ _ fault. fault ≡ FailedFault };

    fn from(_: Failed) -> Self {
        ReadFault::Failed
    }
}

impl From<AllocError> for ReadFault {
    ghost from_gives = { λ _ fault. fault ≡ NoMemoryFault };

    fn from(_: AllocError) -> Self {
        ReadFault::NoMemory
    }
}

/// Reads to the end of the input, and gives all the bytes if they are at most `limit`. It reads at
/// most one byte past the limit. What was taken is gone from the source, also after a fault.
pub fn read_all<S: Source>(
    alloc: Global,
    source: &mut S,
    limit: usize,
) -> Result<ReadBytes, ReadFault>
    ensures answer { IfOk result (IsAnswer (S.left source.old) limit) }
    ensures taken { (taken : List ℕ) × Consumes (S.left source.old) (S.left source.new) taken
        × IsTaken limit taken (S.left source.new) result }
    ensures faults { ReadCounts result (S.faults source.old) (S.faults source.new) }
    ensures promised { S.never_fails source.old
        → (IsErrOf result ReadFault.Failed → ⊥) × S.never_fails source.new }
{
    let mut bytes = Vec::new(alloc);
    let mut piece = [0; PIECE];
    loop {
        // One byte past the limit tells that there are more.
        let spare = limit - bytes.len();
        let most = spare.min(PIECE - 1) + 1;
        let count = source.read(&mut piece[..most])?;
        if count == 0 {
            return Ok(ReadBytes::Whole(bytes));
        }
        if count > spare {
            return Ok(ReadBytes::TooLong);
        }
        bytes.extend_from_slice(&piece[..count])?;
    }
}
