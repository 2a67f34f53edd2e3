//! A reader and a writer of `std` that fail: an interrupted call is made again, and each error is counted.
ghost use Rattle.std.specs.Prelude.{◌≡◌, IfOk};

use io_edge::{Failed, Sink, Source, StdSink, StdSource};
use std::io::{self, ErrorKind, Read, Write};

/// Answers `Interrupted`, then a byte, then an error, over and over.
#[derive(Drop)]
struct Flaky {
    calls: u32,
}

impl Flaky {
    fn next(&mut self) -> io::Result<usize>
        ensures { IfOk result (λ count. count ≡ 1) }
    {
        self.calls = self.calls.wrapping_add(1);
        match self.calls % 3 {
            1 => Err(io::Error::from(ErrorKind::Interrupted)),
            2 => Ok(1),
            _ => Err(io::Error::from(ErrorKind::Other)),
        }
    }
}

impl Read for Flaky {
    fn read(&mut self, buf: &mut [u8]) -> io::Result<usize> {
        match buf.first_mut() {
            Some(first) => {
                *first = 7;
                self.next()
            }
            None => Ok(0),
        }
    }
}

impl Write for Flaky {
    /// It takes no byte where a reader would have had one.
    fn write(&mut self, _: &[u8]) -> io::Result<usize> {
        self.next()?;
        Ok(0)
    }

    fn flush(&mut self) -> io::Result<()> {
        Ok(())
    }
}

#[test]
fn interrupted_calls_are_made_again(rt: HostRuntime) {
    let mut source = StdSource::over(Flaky { calls: 0 });
    let mut sink = StdSink::over(Flaky { calls: 0 });
    let mut byte = [0];
    for _ in 0..3 {
        assert_eq!(rt; source.read(&mut byte), Ok(1));
        assert_eq!(rt; source.read(&mut byte), Err(Failed));
        assert_eq!(rt; sink.write(&byte), Err(Failed));
        assert_eq!(rt; sink.write(&byte), Err(Failed));
    }
}
