//! Why a line of a hal log is refused.

ghost use Rattle.std.specs.Prelude.{◌≡◌};
ghost use Rattle.hal_lines.specs.declared.cause.LineRefused.TheVariants.{Bad, NoMemory};

use std::alloc::AllocError;

/// Why a hal log is refused, by one of its lines or as a whole. In one line `BadLine` is tried first.
#[derive(Clone, Copy, Debug, PartialEq, Eq)]
pub enum Cause {
    /// No line counts; the line is one past the last.
    Truncated = 41,
    /// A word in the place of a number isn't one in its one spelling, or is out of its range.
    BadNumber = 42,
    /// The line has none of the shapes, ends what was never begun, or has a byte other than 0x20 to 0x7E; or the first
    /// that counts isn't `hal 1` with a number.
    BadLine = 43,
    /// Of line 0: the text has more than 134,217,728 bytes.
    TooLong = 45,
}

impl Cause {
    ghost use Rattle.hal_lines.specs.Causes.{number_of};
    ghost use Rattle.hal_lines.specs.Values.{first_cause};

    /// The number that stands for the cause in what the program prints.
    pub fn number(self) -> u8
        ensures { result ≡ number_of self }
    {
        self as u8
    }

    /// The one of two causes of a line that comes first.
    pub fn or_before(self, other: Cause) -> Cause
        ensures { result ≡ first_cause self other }
    {
        match (self, other) {
            (_, Cause::BadLine) => other,
            _ => self,
        }
    }
}

/// Why a line gives no event.
#[derive(Clone, Copy)]
pub enum LineRefused {
    Bad(Cause),
    NoMemory,
}

impl From<Cause> for LineRefused {
    ghost from_gives = { λ cause e. e ≡ Bad cause };

    fn from(cause: Cause) -> LineRefused {
        LineRefused::Bad(cause)
    }
}

impl From<AllocError> for LineRefused {
    ghost from_gives = { λ _ e. e ≡ NoMemory };

    fn from(_error: AllocError) -> LineRefused {
        LineRefused::NoMemory
    }
}
