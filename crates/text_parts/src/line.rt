//! How a text is cut into lines that end by LF or by CR LF.

ghost use Rattle.std.specs.Prelude.{◌≡◌, ◌<◌, [], ◌∷◌, length, MatchOption, IfSome};
ghost use Rattle.std.specs.Str.Lines.{strip_carriage_return};
ghost use Rattle.text_parts.specs.Lines.{lines_of};

use crate::cut::split_at_byte;

/// A line without the CR at its end, if it has one.
pub fn without_return(line: &[u8]) -> &[u8]
    ensures { result.now ≡ strip_carriage_return line.now }
{
    match line {
        [front @ .., b'\r'] => front,
        _ => line,
    }
}

/// The first line without its end, and what stands after it; none where the text is empty. The last line may lack its
/// end.
pub fn split_line(text: &[u8]) -> Option<(&[u8], &[u8])>
    ensures lines { MatchOption result (lines_of text.now ≡ [])
        (λ cut. lines_of text.now ≡ cut.0.now ∷ lines_of cut.1.now) }
    ensures shorter { IfSome result (λ cut. length cut.1.now < length text.now) }
{
    match split_at_byte(text, b'\n') {
        Some((line, rest)) => Some((without_return(line), rest)),
        None if text.is_empty() => None,
        None => Some((text, &[])),
    }
}
