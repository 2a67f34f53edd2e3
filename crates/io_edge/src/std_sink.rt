//! Standard output as a sink.
// Standard output as a sink.
ghost use Rattle.std.specs.Prelude.{◌≡◌, IsOk, IfOk};

use crate::fault_count::FaultCount;
use crate::{Failed, NoMemory, Sink};
use std::io::{self, ErrorKind, Print, Write};

/// Standard output, or another writer of `std`, as a sink whose errors are counted. It tells the
/// bytes that the writer tells: of standard output none. Nothing is buffered, so that no byte
/// waits for a flush.
#[derive(Drop)]
pub struct StdSink<W: Write + Drop> {
    writer: W,
    faults: FaultCount,
}

impl<'a, P: Print> StdSink<io::Printer<'a, P>> {
    /// Standard output. It takes no memory, so that the answer is always `Ok`.
    pub fn new(rt: &'a P) -> Result<Self, NoMemory>
        ensures made { IsOk result }
        ensures faults { IfOk result (λ sink. (⟦<StdSink<io::Printer<'a, P>> as Sink>⟧.state sink).faults ≡ 0) }
    {
        Ok(StdSink::over(io::writer(rt)))
    }
}

impl<W: Write + Drop> StdSink<W> {
    /// A writer of `std`, which is to buffer nothing.
    pub fn over(writer: W) -> Self
        ensures { ⟦<StdSink<W> as Sink>⟧.state result ≡ record { written = W.contents writer; faults = 0 } }
    {
        StdSink {
            writer,
            faults: FaultCount::new(),
        }
    }
}

impl<W: Write + Drop> Sink for StdSink<W> {
    ghost state = { λ s. record { written = W.contents s.writer; faults = s.faults } };

    /// One write of the writer, tried again where a signal interrupted it. An error is a fault, and
    /// so is that the writer takes no byte of some.
    fn write(&mut self, bytes: &[u8]) -> Result<usize, Failed> {
        for _ in 0..u64::MAX {
            match self.writer.write(bytes) {
                Ok(0) if !bytes.is_empty() => return Err(self.faults.note()),
                Ok(count) => return Ok(count),
                Err(error) if error.kind() == ErrorKind::Interrupted => {}
                Err(_) => return Err(self.faults.note()),
            }
        }
        Err(self.faults.note())
    }
}
