//! How a text is cut at a byte.

ghost use Rattle.std.specs.Prelude.{◌≡◌, ◌≢◌, ℕ, ◌+◌, ◌<◌, ◌≤◌, [], ◌∷◌, length, slice_index, MatchOption, IfSome};
ghost use Rattle.std.specs.Option.{option_map};
ghost use Rattle.text_parts.specs.Cuts.{cut_at, in_four, in_two, parts_at};

use memchr::memchr;

/// The place of the first byte of this value, or the text's length where there is none.
pub fn place_of(text: &[u8], byte: u8) -> usize
    ensures within { result ≤ length text.now }
    ensures before { (k : ℕ) → k < result → slice_index text.now k ≢ byte }
    ensures found { result < length text.now → slice_index text.now result ≡ byte }
{
    memchr(byte, text).unwrap_or(text.len())
}

/// What stands before the first byte of this value, and what stands after it.
pub fn split_at_byte(text: &[u8], byte: u8) -> Option<(&[u8], &[u8])>
    ensures cut { option_map (λ cut. (cut.0.now, cut.1.now)) result ≡ cut_at byte text.now }
    ensures parts { MatchOption result (parts_at byte text.now ≡ text.now ∷ [])
        (λ cut. parts_at byte text.now ≡ cut.0.now ∷ parts_at byte cut.1.now) }
    ensures shorter { IfSome result (λ cut. length cut.0.now + length cut.1.now < length text.now) }
{
    let place = place_of(text, byte);
    if place == text.len() {
        return None;
    }
    let (front, back) = text.split_at(place);
    Some((front, &back[1..]))
}

/// What stands before and after a byte of this value, where there is just one.
pub fn split_in_two(text: &[u8], byte: u8) -> Option<(&[u8], &[u8])>
    ensures { option_map (λ cut. (cut.0.now, cut.1.now)) result ≡ in_two byte text.now }
{
    let (front, back) = split_at_byte(text, byte)?;
    match split_at_byte(back, byte) {
        Some(_) => None,
        None => Some((front, back)),
    }
}

/// The four parts of a text, where a byte of this value stands just three times.
pub fn split_in_four(text: &[u8], byte: u8) -> Option<(&[u8], &[u8], &[u8], &[u8])>
    ensures { option_map (λ cut. (cut.0.now, cut.1.now, cut.2.now, cut.3.now)) result ≡ in_four byte text.now }
{
    let (first, rest) = split_at_byte(text, byte)?;
    let (second, rest) = split_at_byte(rest, byte)?;
    let (third, fourth) = split_in_two(rest, byte)?;
    Some((first, second, third, fourth))
}
