//! The spare blocks of a stream.
ghost use Rattle.std.specs.Prelude.{◌≡◌, ◌==◌, ◌<◌, length, false, IfOk};
ghost use Rattle.hal_device_model.specs.State.{back, lent, no_spare};

use std::alloc::{AllocError, Global};
use std::marker::Model;

/// Blocks of one length that nobody uses.
#[derive(Drop)]
pub(crate) struct Shelf {
    blocks: Vec<Vec<u8>>,
    /// The bytes of each block.
    size: usize,
    /// How many blocks there is room for.
    room: usize,
}

impl Model for Shelf {
    ghost use Rattle.std.specs.Prelude.{◌≡◌, ◌==◌, ◌≤◌, length, true, vec_capacity};
    ghost use Rattle.std.specs.List.{list_all};
    ghost use Rattle.hal_device_model.specs.State.{Spare};

    ghost Value = { Spare };

    ghost view = { λ s. record { size = s.size; free = length s.blocks.items; room = s.room } };

    ghost invariant = { λ s.
        (list_all (λ b. length b.items == s.size) s.blocks.items ≡ true) × (s.room ≤ vec_capacity s.blocks) };
}

impl Shelf {
    /// No block, and room for none.
    pub fn empty(alloc: Global) -> Shelf
        ensures { result ≡ no_spare }
    {
        Shelf {
            blocks: Vec::new(alloc),
            size: 0,
            room: 0,
        }
    }

    /// So many blocks, and room for as many.
    pub fn new(alloc: Global, size: usize, count: u32) -> Result<Shelf, AllocError>
        ensures { IfOk result (λ shelf. shelf ≡ record { size = size; free = count; room = count }) }
    {
        let mut blocks = Vec::with_capacity(alloc, count as usize)?;
        for _ in 0..count {
            blocks.push(vec![in alloc; 0; size]?)?;
        }
        Ok(Shelf {
            blocks,
            size,
            room: count as usize,
        })
    }

    /// Whether no block is left.
    pub fn is_empty(&self) -> bool
        ensures { result ≡ (self.now.free == 0) }
    {
        self.blocks.is_empty()
    }

    /// Lends a block.
    pub fn lend(&mut self) -> Vec<u8>
        requires { (self.old.free == 0) ≡ false }
        ensures block { length result.items ≡ self.old.size }
        ensures shelf { self.new ≡ lent self.old }
    {
        match self.blocks.pop() {
            Some(block) => block,
            None => unreachable!(),
        }
    }

    /// Takes a block back, where there is room; else it is let go.
    pub fn take_back(&mut self, block: Vec<u8>)
        requires { length block.items ≡ self.old.size }
        ensures { self.new ≡ back self.old }
    {
        if self.blocks.len() < self.room {
            let _ = self.blocks.push(block);
        }
    }
}
