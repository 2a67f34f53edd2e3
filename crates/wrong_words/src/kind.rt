//! Which lines of a script's text are of which kind.
ghost use Rattle.std.specs.Prelude.{◌≡◌};
ghost use Rattle.wrong_words.specs.Places.{is_of_kind};

use text_parts::{command_word, next_loose_word};

/// What a line of a script's text may be.
#[derive(Clone, Copy, PartialEq, Eq)]
pub enum LineKind {
    /// A command.
    Command,
    /// A fault.
    Fault,
    /// A `pick` with its numbers.
    Pick,
}

/// Whether the line is of the kind, by its first word.
pub fn is_of_kind(kind: LineKind, line: &[u8]) -> bool
    ensures { result ≡ is_of_kind kind line.now }
{
    let Some((word, _)) = next_loose_word(line) else {
        return false;
    };
    match kind {
        LineKind::Command => command_word(word).is_some(),
        LineKind::Fault => word == b"fault".as_slice(),
        LineKind::Pick => word == b"pick".as_slice(),
    }
}
