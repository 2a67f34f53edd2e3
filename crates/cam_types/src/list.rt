//! Lists that contracts see as their entries.
ghost use Rattle.std.specs.Prelude.{◌≡◌, ◌+◌, ◌<◌, ◌++◌, ◌∷◌, [], length, OnOk, OnErr, slice_get, option_copied, is_some, nat_lt};

use std::alloc::{AllocError, Global};
use std::marker::Model;

/// What a call answers that found no memory.
pub type NoMemory = AllocError;

/// A list that grows at its end. A contract sees it as the list of its entries.
#[derive(Debug, Drop)]
pub struct Listing<T> {
    entries: Vec<T>,
}

impl<T> Model for Listing<T> {
    ghost use Rattle.std.specs.Prelude.{List, length, ◌<◌, ◌^◌};

    ghost Value = { List T };

    ghost view = { λ l. l.entries.items };

    ghost invariant = { λ l. length l.entries.items < 2 ^ 32 };
}

impl<T> Listing<T> {
    /// The empty list.
    pub fn new(alloc: Global) -> Self
        ensures { result ≡ [] }
    {
        Listing {
            entries: Vec::new(alloc),
        }
    }

    /// The number of entries.
    pub fn len(&self) -> u32
        ensures { result ≡ length self.now }
    {
        self.entries.len() as u32
    }

    /// The entry at a place, counted from 0.
    pub fn get(&self, place: u32) -> Option<&T>
        ensures { option_copied result ≡ slice_get self.now place }
    {
        self.entries.get(place as usize)
    }

    /// The entries, the first one first.
    pub fn as_slice(&self) -> &[T]
        ensures { result.now ≡ self.now }
    {
        self.entries.as_slice()
    }
}

impl<T: Drop> Listing<T> {
    /// Appends an entry.
    pub fn push(&mut self, entry: T) -> Result<(), NoMemory>
        requires { length self.old < u32.MAX }
        ensures ok { OnOk result (self.new ≡ self.old ++ entry ∷ []) }
        ensures err { OnErr result (self.new ≡ self.old) }
    {
        self.entries.push(entry)?;
        Ok(())
    }
}
