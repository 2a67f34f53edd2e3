//! A text in memory that is written to.
ghost use Rattle.std.specs.Prelude.{◌≡◌, ◌++◌, [], OnOk};

use cam_types::NoMemory;
use io_edge::{Failed, Sink};
use std::alloc::Global;

/// A text in memory that grows as it is written to. It fails only for want of memory.
#[derive(Drop)]
pub struct TextSink {
    text: Vec<u8>,
    faults: u64,
}

impl TextSink {
    /// The empty text.
    pub fn new(alloc: Global) -> TextSink
        ensures { result.text.items ≡ [] }
    {
        TextSink {
            text: Vec::new(alloc),
            faults: 0,
        }
    }

    /// Appends bytes.
    pub fn append(&mut self, bytes: &[u8]) -> Result<(), NoMemory>
        ensures { OnOk result (self.new.text.items ≡ self.old.text.items ++ bytes.now) }
    {
        self.text.extend_from_slice(bytes)
    }

    /// What was written.
    pub fn bytes(&self) -> &[u8]
        ensures { result.now ≡ self.now.text.items }
    {
        self.text.as_slice()
    }
}

impl Sink for TextSink {
    ghost use Rattle.std.specs.Prelude.{Some};

    ghost state = { λ s. record { written = Some s.text.items; faults = s.faults } };

    /// Takes all bytes. It fails only for want of memory.
    fn write(&mut self, bytes: &[u8]) -> Result<usize, Failed> {
        match self.text.extend_from_slice(bytes) {
            Ok(()) => Ok(bytes.len()),
            Err(_) => {
                self.faults = self.faults.saturating_add(1);
                Err(Failed)
            }
        }
    }
}
