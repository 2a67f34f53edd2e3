//! Standard input as a source.
// Standard input as a source.
ghost use Rattle.std.specs.Prelude.{◌≡◌, IsOk, IfOk};

use crate::fault_count::FaultCount;
use crate::{Failed, NoMemory, Source};
use std::io::{ErrorKind, Input, Read};

/// Standard input, or another reader of `std`, as a source whose errors are counted. It tells the
/// bytes that the reader tells: of standard input none.
#[derive(Drop)]
pub struct StdSource<R: Read + Drop> {
    reader: R,
    faults: FaultCount,
}

impl<R: Read + Drop> StdSource<R> {
    /// Standard input. It takes no memory, so that the answer is always `Ok`.
    pub fn new<I: Input<Reader = R>>(rt: &I) -> Result<Self, NoMemory>
        ensures made { IsOk result }
        ensures faults { IfOk result (λ source. ⟦<StdSource<R> as Source>⟧.faults source ≡ 0) }
    {
        Ok(StdSource::over(rt.reader()))
    }

    /// A reader of `std`.
    pub fn over(reader: R) -> Self
        ensures left { ⟦<StdSource<R> as Source>⟧.left result ≡ R.remaining reader }
        ensures faults { ⟦<StdSource<R> as Source>⟧.faults result ≡ 0 }
    {
        StdSource {
            reader,
            faults: FaultCount::new(),
        }
    }
}

impl<R: Read + Drop> Source for StdSource<R> {
    ghost left = { λ s. R.remaining s.reader };

    ghost faults = { λ s. s.faults };

    /// One read of the reader, tried again where a signal interrupted it. An error is a fault.
    fn read(&mut self, buf: &mut [u8]) -> Result<usize, Failed> {
        for _ in 0..u64::MAX {
            match self.reader.read(buf) {
                Ok(count) => return Ok(count),
                Err(error) if error.kind() == ErrorKind::Interrupted => {}
                Err(_) => return Err(self.faults.note()),
            }
        }
        Err(self.faults.note())
    }
}
