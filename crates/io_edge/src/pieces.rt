//! Bytes that are gathered into pieces on their way to a sink.

ghost use Rattle.std.specs.Prelude.{◌≡◌, ◌-◌, ◌<◌, ◌++◌, [], length, take, min, IfOk, OnOk, OnErr};
ghost use Rattle.io_edge.specs.Faults.{Counts};
ghost use Rattle.io_edge.specs.States.{Breaks, Writes};
ghost use Rattle.io_edge.specs.Pieces.{Gathers};

use crate::{Failed, Sink, write_all};
use cam_types::NoMemory;
use std::alloc::Global;
use std::marker::Model;

/// The bytes of a piece.
pub const PIECE: usize = 4_096;

/// What is gathered of a piece. A contract sees its bytes. No call but `new` takes memory.
#[derive(Drop)]
pub struct Pieces {
    gathered: Vec<u8>,
}

impl Model for Pieces {
    ghost use Rattle.std.specs.Prelude.{List, ℕ, ◌≤◌, length, vec_capacity};

    ghost Value = { List ℕ };

    ghost view = { λ p. p.gathered.items };

    ghost invariant = { λ p. (4096 ≤ vec_capacity p.gathered) × (length p.gathered.items ≤ 4096) };
}

impl Pieces {
    /// Room for a piece, of which nothing is gathered.
    pub fn new(alloc: Global) -> Result<Pieces, NoMemory>
        ensures { IfOk result (λ pieces. pieces ≡ []) }
    {
        let gathered = Vec::with_capacity(alloc, PIECE)?;
        Ok(Pieces { gathered })
    }

    /// Forgets what is gathered.
    pub fn clear(&mut self)
        ensures { self.new ≡ [] }
    {
        self.gathered.clear();
    }

    /// Gathers the front of the bytes, as far as it fits the piece, and gives its length.
    fn gather(&mut self, bytes: &[u8]) -> usize
        ensures count { result ≡ min (length bytes.now) (PIECE - length self.old) }
        ensures gathered { self.new ≡ self.old ++ take result bytes.now }
    {
        let count = bytes.len().min(PIECE - self.gathered.len());
        self.gathered.extend_from_slice(&bytes[..count]).unwrap();
        count
    }

    /// Writes what is gathered.
    pub fn flush<K: Sink>(&mut self, sink: &mut K) -> Result<(), Failed>
        ensures written { OnOk result (Writes (K.state sink.old) (K.state sink.new) self.old) }
        ensures empty { OnOk result (self.new ≡ []) }
        ensures failed { OnErr result (Breaks (K.state sink.old) (K.state sink.new) self.old) }
        ensures faults { Counts result (K.state sink.old).faults (K.state sink.new).faults }
    {
        write_all(sink, self.gathered.as_slice())?;
        self.clear();
        Ok(())
    }

    /// Writes the piece where it is full.
    fn make_room<K: Sink>(&mut self, sink: &mut K) -> Result<(), Failed>
        ensures text { OnOk result (Gathers (K.state sink.old) (K.state sink.new) self.new self.old) }
        ensures room { OnOk result (length self.new < PIECE) }
        ensures failed { OnErr result (Breaks (K.state sink.old) (K.state sink.new) self.old) }
        ensures faults { Counts result (K.state sink.old).faults (K.state sink.new).faults }
    {
        if self.gathered.len() == PIECE {
            self.flush(sink)
        } else {
            Ok(())
        }
    }

    /// Gathers bytes. Each piece is written once it is full and a byte more comes.
    pub fn put<K: Sink>(&mut self, bytes: &[u8], sink: &mut K) -> Result<(), Failed>
        ensures text { OnOk result (Gathers (K.state sink.old) (K.state sink.new) self.new (self.old ++ bytes.now)) }
        ensures failed { OnErr result (Breaks (K.state sink.old) (K.state sink.new) (self.old ++ bytes.now)) }
        ensures faults { Counts result (K.state sink.old).faults (K.state sink.new).faults }
    {
        let mut done = 0;
        while done < bytes.len() {
            self.make_room(sink)?;
            done += self.gather(&bytes[done..]);
        }
        Ok(())
    }

    /// Writes bytes alone, in pieces as they fill, and the rest at the end; what was gathered before is forgotten.
    pub fn write<K: Sink>(&mut self, bytes: &[u8], sink: &mut K) -> Result<(), Failed>
        ensures written { OnOk result (Writes (K.state sink.old) (K.state sink.new) bytes.now) }
        ensures failed { OnErr result (Breaks (K.state sink.old) (K.state sink.new) bytes.now) }
        ensures faults { Counts result (K.state sink.old).faults (K.state sink.new).faults }
    {
        self.clear();
        self.put(bytes, sink)?;
        self.flush(sink)
    }
}
