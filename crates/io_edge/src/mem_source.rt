//! A source in memory, for tests: pieces and faults.
// A source over memory, in pieces of a chosen size, with calls that are to fail.
ghost use Rattle.std.specs.Prelude.{◌≡◌, ◌↔◌, ◌++◌, ◌≤◌, ◌<◌, [], Some, IfOk, OnOk, OnErr, IsOk, IsErr, Contains, length, drop, min};
ghost use Rattle.std.specs.Io.KnownBytes.{ReadConsumes};
ghost use Rattle.io_edge.specs.Faults.{Counts, one_more};

use crate::calls::CallCount;
use crate::{Failed, PlainSource, Source};
use std::marker::Model;

/// Bytes in memory, read from the front in pieces of a chosen size, with calls that are to fail.
#[derive(Drop)]
pub struct MemSource {
    bytes: PlainSource,
    piece: u32,
    calls: CallCount,
}

impl Model for MemSource {
    ghost use Rattle.std.specs.Prelude.{◌<◌};
    ghost use Rattle.io_edge.specs.Ends.{Input};

    ghost Value = { Input };

    ghost view = { λ s. record { left = s.bytes; piece = s.piece; calls = s.calls } };

    ghost invariant = { λ s. 0 < s.piece };
}

impl MemSource {
    /// A source of these bytes that gives at most `piece` of them in one read. The calls with the
    /// numbers in `failing`, counted from 1, are to fail.
    pub fn new(bytes: Vec<u8>, piece: u32, failing: Vec<u32>) -> Self
        requires { 0 < piece }
        ensures { result ≡ record {
          left = bytes.items;
          piece = piece;
          calls = record { made = 0; failing = failing.items; faults = 0 };
        } }
    {
        MemSource {
            bytes: PlainSource::new(bytes),
            piece,
            calls: CallCount::new(failing),
        }
    }

    /// How often it was read.
    pub fn reads(&self) -> u64
        ensures { result ≡ self.now.calls.made }
    {
        self.calls.made()
    }
}

impl Source for MemSource {
    ghost left = { λ s. Some s.left };

    ghost faults = { λ s. s.calls.faults };

    ghost never_fails = { λ s. s.calls.failing ≡ [] };

    /// Gives as many bytes as are left, have room and make a piece. It fails exactly where this
    /// call is to fail.
    fn read(&mut self, buf: &mut [u8]) -> Result<usize, Failed>
        ensures bound { IfOk result (λ count. count ≤ length buf.new) }
        ensures bytes { ReadConsumes (Some self.old.left) (Some self.new.left) result buf.new }
        ensures faults { Counts result self.old.calls.faults self.new.calls.faults }
        ensures promised { self.old.calls.failing ≡ [] → IsOk result × (self.new.calls.failing ≡ []) }

        ensures fails { IsErr result ↔ Contains self.old.calls.failing (one_more self.old.calls.made) }
        ensures count { IfOk result
            (λ count. count ≡ min (min (length buf.old) self.old.piece) (length self.old.left)) }
        ensures ok { IfOk result (λ count. self.new ≡ record self.old {
          left = drop count self.old.left;
          calls = record self.old.calls { made = one_more self.old.calls.made };
        }) }
        ensures err { OnErr result (self.new ≡ record self.old {
          calls = record self.old.calls {
            made = one_more self.old.calls.made;
            faults = one_more self.old.calls.faults;
          };
        }) }
    {
        self.calls.begin()?;
        let most = buf.len().min(self.piece as usize);
        Ok(self.bytes.give(&mut buf[..most]))
    }
}
