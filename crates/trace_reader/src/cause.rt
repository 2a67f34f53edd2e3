//! Why a trace is refused.

ghost use Rattle.std.specs.Prelude.{◌≡◌};
ghost use Rattle.trace_reader.specs.declared.cause.TraceRefused.TheVariants.{NoMemory as OutOfMemory};
ghost use Rattle.trace_reader.specs.declared.cause.LineRefused.TheVariants.{Bad, NoMemory};

use std::alloc::AllocError;

/// Why a line of a trace is refused. In one line `BadLine` is tried first, then `BadNumber`, then `BadMetadata`.
#[derive(Clone, Copy, Debug, PartialEq, Eq)]
pub enum Cause {
    /// No complete line is `end`; the line is one past the last complete one.
    Truncated = 41,
    /// A number or a hexadecimal text isn't one in its one spelling, or is out of its range.
    BadNumber = 42,
    /// The line has the shape of no entry, isn't ASCII or stands behind `end`; or the first line is neither
    /// `trace 1` nor `trace 2` with three numbers.
    BadLine = 43,
    /// The text of a `partial` line isn't the packed form of a part with its number.
    BadMetadata = 44,
}

impl Cause {
    ghost use Rattle.trace_reader.specs.Causes.{number_of};
    ghost use Rattle.trace_reader.specs.Values.{rank, first_cause};

    /// The number that stands for the cause in what the program prints.
    pub fn number(self) -> u8
        ensures { result ≡ number_of self }
    {
        self as u8
    }

    /// The place of a cause in the order in which those of one line are tried.
    fn rank(self) -> u8
        ensures { result ≡ rank self }
    {
        match self {
            Cause::BadLine => 0,
            Cause::BadNumber => 1,
            Cause::BadMetadata => 2,
            Cause::Truncated => 3,
        }
    }

    /// The one of two causes that comes first.
    pub fn or_before(self, other: Cause) -> Cause
        ensures { result ≡ first_cause self other }
    {
        if self.rank() <= other.rank() {
            self
        } else {
            other
        }
    }
}

/// Why `read` gives no trace.
#[derive(Clone, Copy, Debug, PartialEq, Eq)]
pub enum TraceRefused {
    /// The first line that has a cause, and the first of its causes.
    Bad { line: u32, cause: Cause },
    /// Memory ran out.
    NoMemory,
}

/// Why a line gives no entry.
#[derive(Clone, Copy)]
pub enum LineRefused {
    Bad(Cause),
    NoMemory,
}

impl From<Cause> for LineRefused {
    ghost from_gives = { λ cause e. e ≡ Bad cause };

    fn from(cause: Cause) -> LineRefused {
        LineRefused::Bad(cause)
    }
}

impl From<AllocError> for LineRefused {
    ghost from_gives = { λ _ e. e ≡ NoMemory };

    fn from(_error: AllocError) -> LineRefused {
        LineRefused::NoMemory
    }
}

impl From<AllocError> for TraceRefused {
    ghost from_gives = { λ _ e. e ≡ OutOfMemory };

    fn from(_error: AllocError) -> TraceRefused {
        TraceRefused::NoMemory
    }
}
