//! Numbers that threads add, with tickets.
ghost use Rattle.std.specs.Prelude.{◌≡◌, [], ◌∷◌, ◌++◌, IsPermutation, Contains, OnErr, IfOk, MatchBool, length, vec_len};
ghost use mathlib.Core.List.{IsPrefix};

use crate::Kept;
use std::alloc::{AllocError, Global};

pub type NoMemory = AllocError;

/// A list of numbers that only grows, under a name, and the tickets that are out.
pub struct Tally {
    name: u32,
    entries: Vec<u64>,
    out: Vec<u64>,
}

impl Kept for Tally {
    type Fixed = u32;

    type Entry = u64;

    type Job = u64;

    ghost fixed = { λ t. t.name };

    ghost entries = { λ t. t.entries.items };

    ghost jobs = { λ t. t.out.items };
}

impl Tally {
    pub fn new(alloc: Global, name: u32) -> Tally
        ensures { (result.name ≡ name) × (result.entries.items ≡ []) × (result.out.items ≡ []) }
    {
        Tally {
            name,
            entries: Vec::new(alloc),
            out: Vec::new(alloc),
        }
    }

    pub fn name(&self) -> u32
        ensures { result ≡ self.now.name }
    {
        self.name
    }

    /// All that was added, in order.
    pub fn entries(&self) -> &[u64]
        ensures { result.now ≡ self.now.entries.items }
    {
        self.entries.as_slice()
    }

    /// How many numbers were added.
    pub fn count(&self) -> u64
        ensures { result ≡ length self.now.entries.items }
    {
        self.entries.len() as u64
    }

    /// Adds a number, and tells its place.
    pub fn add(&mut self, entry: u64) -> Result<usize, NoMemory>
        ensures others { (self.new.name ≡ self.old.name) × (self.new.out.items ≡ self.old.out.items) }
        ensures added { IfOk result
            (λ place. (self.new.entries.items ≡ self.old.entries.items ++ entry ∷ [])
            × (place ≡ vec_len self.old.entries)) }
        ensures err { OnErr result (self.new.entries.items ≡ self.old.entries.items) }
        ensures begins { IsPrefix self.old.entries.items self.new.entries.items }
    {
        let place = self.entries.len();
        self.entries.push(entry)?;
        Ok(place)
    }

    /// Lends a ticket, unless it is out.
    pub fn lend(&mut self, ticket: u64) -> Result<bool, NoMemory>
        ensures others { (self.new.name ≡ self.old.name) × (self.new.entries.items ≡ self.old.entries.items) }
        ensures begins { IsPrefix self.old.entries.items self.new.entries.items }
        ensures lent { IfOk result (λ done. MatchBool done
            ((¬ Contains self.old.out.items ticket) × (self.new.out.items ≡ self.old.out.items ++ ticket ∷ []))
            (Contains self.old.out.items ticket × (self.new.out.items ≡ self.old.out.items))) }
        ensures err { OnErr result (self.new.out.items ≡ self.old.out.items) }
    {
        if self.out.contains(&ticket) {
            return Ok(false);
        }
        self.out.push(ticket)?;
        Ok(true)
    }

    /// Takes a ticket back.
    pub fn take_back(&mut self, ticket: u64)
        requires { Contains self.old.out.items ticket }
        ensures others { (self.new.name ≡ self.old.name) × (self.new.entries.items ≡ self.old.entries.items) }
        ensures begins { IsPrefix self.old.entries.items self.new.entries.items }
        ensures taken { IsPermutation self.old.out.items (ticket ∷ self.new.out.items) }
    {
        let Some(place) = self.out.iter().position(|lent| *lent == ticket) else {
            unreachable!()
        };
        self.out.remove(place);
    }

    /// Spends the tally.
    pub fn into_entries(self) -> Vec<u64>
        ensures { result.items ≡ self.entries.items }
    {
        let Tally {
            name: _,
            entries,
            out: _,
        } = self;
        entries
    }
}
