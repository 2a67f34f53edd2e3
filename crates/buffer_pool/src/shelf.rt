//! Blocks of one length, lent one by one.
ghost use Rattle.std.specs.Prelude.{◌≡◌, ◌+◌, ◌-◌, ◌<◌, length, IfOk};
ghost use Rattle.buffer_pool.specs.Shelf.{full_shelf};

use std::alloc::{AllocError, Global};
use std::marker::Model;

/// Blocks of one length, of which some are lent.
#[derive(Drop)]
pub(crate) struct Shelf {
    free: Vec<Vec<u8>>,
    /// The bytes of each block.
    size: usize,
    /// How many blocks there are, free and lent together.
    total: u32,
}

impl Model for Shelf {
    ghost use Rattle.std.specs.Prelude.{◌≡◌, ◌==◌, ◌≤◌, ◌-◌, length, true, vec_capacity};
    ghost use Rattle.std.specs.List.{list_all};
    ghost use Rattle.buffer_pool.specs.Shelf.{Shelved};

    ghost Value = { Shelved };

    ghost view = { λ s. record { size = s.size; free = length s.free.items; lent = s.total - length s.free.items } };

    ghost invariant = { λ s. (list_all (λ b. length b.items == s.size) s.free.items ≡ true)
        × (length s.free.items ≤ s.total) × (s.total ≤ vec_capacity s.free) };
}

impl Shelf {
    /// So many free blocks.
    pub fn new(alloc: Global, size: usize, count: u32) -> Result<Shelf, AllocError>
        ensures { IfOk result (λ shelf. shelf ≡ full_shelf size count) }
    {
        let mut free = Vec::with_capacity(alloc, count as usize)?;
        for _ in 0..count {
            free.push(vec![in alloc; 0; size]?)?;
        }
        Ok(Shelf {
            free,
            size,
            total: count,
        })
    }

    /// Lends a block.
    pub fn lend(&mut self) -> Vec<u8>
        requires { 0 < self.old.free }
        ensures block { length result.items ≡ self.old.size }
        ensures shelf { self.new ≡ record self.old { free = self.old.free - 1; lent = self.old.lent + 1 } }
    {
        match self.free.pop() {
            Some(block) => block,
            None => unreachable!(),
        }
    }

    /// Takes a block back.
    pub fn take_back(&mut self, block: Vec<u8>)
        requires lent { 0 < self.old.lent }
        requires whole { length block.items ≡ self.old.size }
        ensures { self.new ≡ record self.old { free = self.old.free + 1; lent = self.old.lent - 1 } }
    {
        let _ = self.free.push(block);
    }
}
