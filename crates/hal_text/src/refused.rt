//! Why a text means no hal log.

ghost use Rattle.std.specs.Prelude.{◌≡◌};
ghost use Rattle.hal_text.specs.Reader.{refused};
ghost use Rattle.hal_text.specs.declared.refused.LogRefused.TheVariants.{NoMemory as OutOfMemory};

use hal_lines::{Cause, LineRefused};
use std::alloc::AllocError;

/// Why a text means no hal log.
#[derive(Clone, Copy, Debug, PartialEq, Eq)]
pub enum LogRefused {
    /// The first line that has a cause, counted from 1, and the first of its causes. Line 0 stands for a text of more
    /// than 134,217,728 bytes.
    Bad { line: u32, cause: Cause },
    /// Memory ran out.
    NoMemory,
}

impl From<AllocError> for LogRefused {
    ghost from_gives = { λ _ e. e ≡ OutOfMemory };

    fn from(_error: AllocError) -> LogRefused {
        LogRefused::NoMemory
    }
}

/// The refusal of a line by its number.
pub fn refused(line: u32, why: LineRefused) -> LogRefused
    ensures { result ≡ refused line why }
{
    match why {
        LineRefused::Bad(cause) => LogRefused::Bad { line, cause },
        LineRefused::NoMemory => LogRefused::NoMemory,
    }
}
