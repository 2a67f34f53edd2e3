//! Why nothing was tried.

use io_edge::{NoMemory, ReadFault};
use std::fmt::{self, Write};
use std::io;
use text_parts::TextRefused;
use trace_reader::TraceRefused;

/// Why nothing was tried.
#[derive(Clone, Copy)]
pub enum NotTried {
    /// The words name nothing that can be tried.
    Words,
    /// The input can't be read, or it is too long, or it isn't what the words ask for.
    Input,
    /// The line can't be written.
    Output,
    /// There is no memory.
    Memory,
}

impl NotTried {
    /// The program's status.
    pub fn status(self) -> u8 {
        match self {
            NotTried::Words => 2,
            NotTried::Input => 3,
            NotTried::Output => 4,
            NotTried::Memory => 5,
        }
    }
}

impl fmt::Display for NotTried {
    fn fmt<W: Write>(&self, f: &mut fmt::Formatter<W>) -> fmt::Result {
        let why = match self {
            NotTried::Words => "the words name nothing",
            NotTried::Input => "the input can't be read, or isn't what is asked for",
            NotTried::Output => "the output can't be written",
            NotTried::Memory => "there is no memory",
        };
        write!(f, "{why}")
    }
}

impl From<NoMemory> for NotTried {
    fn from(_: NoMemory) -> Self {
        NotTried::Memory
    }
}

impl From<io::Error> for NotTried {
    fn from(_: io::Error) -> Self {
        NotTried::Output
    }
}

impl From<ReadFault> for NotTried {
    fn from(fault: ReadFault) -> Self {
        match fault {
            ReadFault::Failed => NotTried::Input,
            ReadFault::NoMemory => NotTried::Memory,
        }
    }
}

impl From<TextRefused> for NotTried {
    fn from(why: TextRefused) -> Self {
        match why {
            TextRefused::Bad { .. } => NotTried::Input,
            TextRefused::NoMemory => NotTried::Memory,
        }
    }
}

impl From<TraceRefused> for NotTried {
    fn from(why: TraceRefused) -> Self {
        match why {
            TraceRefused::Bad { .. } => NotTried::Input,
            TraceRefused::NoMemory => NotTried::Memory,
        }
    }
}
