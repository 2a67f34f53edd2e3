//! Why a text is refused.

ghost use Rattle.std.specs.Prelude.{◌≡◌};
ghost use Rattle.text_parts.specs.Reader.{refused};
ghost use Rattle.text_parts.specs.declared.cause.TextRefused.TheVariants.{NoMemory as OutOfMemory};
ghost use Rattle.text_parts.specs.declared.cause.LineRefused.TheVariants.{Bad, NoMemory};

use std::alloc::AllocError;

/// Why a line is refused. In one line the causes are tried in the order of their numbers.
#[derive(Clone, Copy, Debug, PartialEq, Eq)]
pub enum Cause {
    /// The line has a byte other than 0x20 to 0x7E, apart from its end.
    NotAscii = 31,
    /// It is the first line that isn't ignored, and isn't the version line of its text.
    Version = 32,
    /// Its first word isn't that of any line that may stand there, or the word after `fault` isn't that of any fault.
    UnknownWord = 33,
    /// A word that stands in the place of a number, a stream or a capture isn't one, or is out of its range.
    BadNumber = 34,
    /// It has too few words.
    Missing = 35,
    /// It has too many words.
    Extra = 36,
    /// With this line a counted number passes its limit, as that of `device` lines, which is one. As cause of line 0:
    /// the text is too long.
    Limit = 37,
    /// A fault, pick, early or device line stands after a command line.
    FaultAfterCommand = 38,
}

impl Cause {
    ghost use Rattle.text_parts.specs.Causes.{number_of};

    /// The number that stands for the cause in what the program prints.
    pub fn number(self) -> u8
        ensures { result ≡ number_of self }
    {
        self as u8
    }
}

/// Why a text means nothing.
#[derive(Clone, Copy, Debug, PartialEq, Eq)]
pub enum TextRefused {
    /// The first line that has a cause, counted from 1, and the first of its causes. Line 0 stands for a text of more
    /// than 65,536 bytes.
    Bad { line: u32, cause: Cause },
    /// Memory ran out.
    NoMemory,
}

/// Why a line adds nothing.
#[derive(Clone, Copy)]
pub enum LineRefused {
    Bad(Cause),
    NoMemory,
}

impl From<Cause> for LineRefused {
    ghost from_gives = { λ cause e. e ≡ Bad cause };

    fn from(cause: Cause) -> LineRefused {
        LineRefused::Bad(cause)
    }
}

impl From<AllocError> for LineRefused {
    ghost from_gives = { λ _ e. e ≡ NoMemory };

    fn from(_error: AllocError) -> LineRefused {
        LineRefused::NoMemory
    }
}

impl From<AllocError> for TextRefused {
    ghost from_gives = { λ _ e. e ≡ OutOfMemory };

    fn from(_error: AllocError) -> TextRefused {
        TextRefused::NoMemory
    }
}

/// The refusal of a line by its number.
pub fn refused(line: u32, why: LineRefused) -> TextRefused
    ensures { result ≡ refused line why }
{
    match why {
        LineRefused::Bad(cause) => TextRefused::Bad { line, cause },
        LineRefused::NoMemory => TextRefused::NoMemory,
    }
}
