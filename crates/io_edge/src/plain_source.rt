//! A source in memory that never fails.
// A source over memory that never fails.
ghost use Rattle.std.specs.Prelude.{◌≡◌, ◌≤◌, ◌++◌, Some, Ok, IfOk, IsOk, length, take, drop, min};
ghost use Rattle.std.specs.Io.KnownBytes.{ReadConsumes};
ghost use Rattle.io_edge.specs.Faults.{Counts};

use crate::{Failed, Source};
use std::marker::Model;

/// Bytes in memory, read from the front. No read fails. Contracts see the bytes that are left.
#[derive(Drop)]
pub struct PlainSource {
    bytes: Vec<u8>,
    taken: usize,
}

impl Model for PlainSource {
    ghost use Rattle.std.specs.Prelude.{ℕ, List, ◌≤◌, drop, length};

    ghost Value = { List ℕ };

    ghost view = { λ s. drop s.taken s.bytes.items };

    ghost invariant = { λ s. s.taken ≤ length s.bytes.items };
}

impl PlainSource {
    /// A source of these bytes.
    pub fn new(bytes: Vec<u8>) -> Self
        ensures { result ≡ bytes.items }
    {
        PlainSource { bytes, taken: 0 }
    }

    // Moves as many bytes as are left and have room, and gives their number.
    pub(crate) fn give(&mut self, buf: &mut [u8]) -> usize
        ensures count { result ≡ min (length buf.old) (length self.old) }
        ensures given { buf.new ≡ take result self.old ++ drop result buf.old }
        ensures left { self.new ≡ drop result self.old }
    {
        let left = &self.bytes[self.taken..];
        let count = buf.len().min(left.len());
        buf[..count].copy_from_slice(&left[..count]);
        self.taken += count;
        count
    }
}

impl Source for PlainSource {
    ghost left = { λ left. Some left };

    ghost faults = { λ _. 0 };

    ghost never_fails = { λ _. Unit {0} };

    /// Gives as many bytes as are left and have room.
    fn read(&mut self, buf: &mut [u8]) -> Result<usize, Failed>
        ensures bound { IfOk result (λ count. count ≤ length buf.new) }
        ensures bytes { ReadConsumes (Some self.old) (Some self.new) result buf.new }
        ensures faults { Counts result 0 0 }
        ensures promised { IsOk result }

        ensures count { result ≡ Ok (min (length buf.old) (length self.old)) }
    {
        Ok(self.give(buf))
    }
}
