//! A sink in memory, for tests: pieces, faults, full rooms.
// A sink over memory, with room and pieces of a chosen size, and with calls that are to fail.
ghost use Rattle.std.specs.Prelude.{ℕ, ◌≡◌, ◌↔◌, ◌⊎◌, ◌++◌, ◌-◌, ◌≤◌, ◌<◌, [], Some, IfOk, OnOk, OnErr, IsOkAnd, IsErr, Contains, length, take, min};
ghost use Rattle.std.specs.Io.KnownBytes.{WriteAppends};
ghost use Rattle.io_edge.specs.Faults.{Counts, one_more};
ghost use Rattle.io_edge.specs.Ends.{HasRoom};

use crate::calls::CallCount;
use crate::{Failed, NoMemory, Sink};
use std::alloc::Global;
use std::marker::Model;

/// Room in memory that is written from the front, in pieces of a chosen size, with calls that are to
/// fail. Its room is taken when it is made, so that no write takes memory.
#[derive(Drop)]
pub struct MemSink {
    block: Vec<u8>,
    used: usize,
    piece: u32,
    calls: CallCount,
}

impl Model for MemSink {
    ghost use Rattle.std.specs.Prelude.{◌≤◌, ◌<◌, length, take};
    ghost use Rattle.io_edge.specs.Ends.{Output};

    ghost Value = { Output };

    ghost view = { λ s.
        record {
          written = take s.used s.block.items;
          room = length s.block.items;
          piece = s.piece;
          calls = s.calls;
        } };

    ghost invariant = { λ s. (s.used ≤ length s.block.items) × (0 < s.piece) };
}

impl MemSink {
    /// An empty sink with this room, which takes at most `piece` bytes in one write. The calls with
    /// the numbers in `failing`, counted from 1, are to fail.
    pub fn new(alloc: Global, room: u32, piece: u32, failing: Vec<u32>) -> Result<Self, NoMemory>
        requires { 0 < piece }
        ensures { IfOk result (λ sink. sink ≡ record {
          written = [];
          room = room;
          piece = piece;
          calls = record { made = 0; failing = failing.items; faults = 0 };
        }) }
    {
        Ok(MemSink {
            block: vec![in alloc; 0; room as usize]?,
            used: 0,
            piece,
            calls: CallCount::new(failing),
        })
    }

    /// How often it was written to.
    pub fn writes(&self) -> u64
        ensures { result ≡ self.now.calls.made }
    {
        self.calls.made()
    }

    /// What was written.
    pub fn bytes(&self) -> &[u8]
        ensures { result.now ≡ self.now.written }
    {
        &self.block[..self.used]
    }

    // Appends the front of the bytes, as far as it fits and makes a piece, and gives its length.
    fn append(&mut self, bytes: &[u8]) -> usize
        ensures count { result ≡ min (min (length bytes.now) self.old.piece) (self.old.room - length self.old.written) }
        ensures appended { self.new ≡ record self.old { written = self.old.written ++ take result bytes.now } }
    {
        let piece = bytes.len().min(self.piece as usize);
        let count = piece.min(self.block.len() - self.used);
        let end = self.used + count;
        self.block[self.used..end].copy_from_slice(&bytes[..count]);
        self.used = end;
        count
    }
}

impl Sink for MemSink {
    ghost state = { λ s. record { written = Some s.written; faults = s.calls.faults } };

    ghost takes = { HasRoom };

    /// Takes as many bytes as fit and make a piece. It fails exactly where this call is to fail, or
    /// the room is full and there is a byte to write.
    fn write(&mut self, bytes: &[u8]) -> Result<usize, Failed>
        ensures bound { IfOk result (λ count. count ≤ length bytes.now) }
        ensures progress { IfOk result (λ count. 0 < length bytes.now → 0 < count) }
        ensures bytes { WriteAppends (Some self.old.written) (Some self.new.written) result bytes.now }
        ensures faults { Counts result self.old.calls.faults self.new.calls.faults }
        ensures promised { (total : ℕ) → length bytes.now ≤ total → HasRoom self.old total
            → IsOkAnd result (λ count. HasRoom self.new (total - count)) }

        ensures fails { IsErr result ↔ (Contains self.old.calls.failing (one_more self.old.calls.made)
            ⊎ (0 < length bytes.now) × (length self.old.written ≡ self.old.room)) }
        ensures count { IfOk result
            (λ count. count ≡ min (min (length bytes.now) self.old.piece) (self.old.room - length self.old.written)) }
        ensures ok { IfOk result (λ count. self.new ≡ record self.old {
          written = self.old.written ++ take count bytes.now;
          calls = record self.old.calls { made = one_more self.old.calls.made };
        }) }
        ensures err { OnErr result (self.new ≡ record self.old {
          calls = record self.old.calls {
            made = one_more self.old.calls.made;
            faults = one_more self.old.calls.faults;
          };
        }) }
    {
        self.calls.begin()?;
        let is_full = self.used == self.block.len();
        if is_full && !bytes.is_empty() {
            return Err(self.calls.fault());
        }
        Ok(self.append(bytes))
    }
}
