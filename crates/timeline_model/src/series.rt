//! Lists of any length.
ghost use Rattle.std.specs.Prelude.{◌≡◌, ◌++◌, ◌∷◌, [], IfOk, OnErr, OnOk};

use cam_types::NoMemory;
use std::alloc::Global;
use std::marker::Model;

/// A list that grows at its end. A contract sees it as the list of its entries.
#[derive(Drop)]
pub struct Series<T> {
    entries: Vec<T>,
}

impl<T> Model for Series<T> {
    ghost use Rattle.std.specs.Prelude.{List};

    ghost Value = { List T };

    ghost view = { λ s. s.entries.items };
}

impl<T> Series<T> {
    /// The empty list.
    pub fn new(alloc: Global) -> Self
        ensures { result ≡ [] }
    {
        Series {
            entries: Vec::new(alloc),
        }
    }

    /// The list of these entries.
    pub fn of(entries: Vec<T>) -> Self
        ensures { result ≡ entries.items }
    {
        Series { entries }
    }

    /// The entries, the first one first.
    pub fn as_slice(&self) -> &[T]
        ensures { result.now ≡ self.now }
    {
        self.entries.as_slice()
    }
}

impl<T: Drop> Series<T> {
    /// Appends an entry.
    pub fn push(&mut self, entry: T) -> Result<(), NoMemory>
        ensures ok { OnOk result (self.new ≡ self.old ++ entry ∷ []) }
        ensures err { OnErr result (self.new ≡ self.old) }
    {
        self.entries.push(entry)?;
        Ok(())
    }
}

impl Series<u8> {
    /// The bytes of a text.
    pub fn copied(alloc: Global, text: &[u8]) -> Result<Self, NoMemory>
        ensures { IfOk result (λ bytes. bytes ≡ text.now) }
    {
        let mut entries = Vec::new(alloc);
        entries.extend_from_slice(text)?;
        Ok(Series { entries })
    }
}
