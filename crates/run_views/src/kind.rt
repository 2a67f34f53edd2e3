//! Whether an input is a hal log.
ghost use Rattle.std.specs.Prelude.{◌≡◌};
ghost use Rattle.text_parts.specs.Words.{loose_words};
ghost use Rattle.run_views.specs.Kinds.{is_hal, said_by};

use text_parts::{next_loose_word, split_line};

/// What a line says of it: one of spaces alone, or a comment, nothing.
fn said_by(line: &[u8]) -> Option<bool>
    ensures { result ≡ said_by (loose_words line.now) }
{
    match next_loose_word(line) {
        None | Some(([b'#', ..], _)) => None,
        Some((word, _)) => Some(word == b"hal".as_slice()),
    }
}

/// Whether the first word of the first line that counts is `hal`.
#[tactic(auto, unfolding(crate::specs::Kinds::is_hal))]
pub fn is_hal(input: &[u8]) -> bool
    ensures { result ≡ is_hal input.now }
{
    let mut rest = input;
    while let Some((line, behind)) = split_line(rest) {
        if let Some(said) = said_by(line) {
            return said;
        }
        rest = behind;
    }
    false
}
