//! Numbers as they are written: decimal, without sign and leading zeros.

ghost use Rattle.std.specs.Prelude.{◌≡◌, ◌^◌, ◌<◌, ◌≤◌, ◌&&◌, ◌+◌, ◌*◌, Some, None, IfSome, nat_lt, if◌then◌else◌};
ghost use Rattle.std.specs.Str.{all_ascii_digits};
ghost use Rattle.std.specs.Str.Parse.{digits_value};
ghost use Rattle.text_parts.specs.Numbers.{is_number, number_below, number_within};

/// Whether bytes are decimal digits.
fn are_digits(word: &[u8]) -> bool
    ensures { result ≡ all_ascii_digits word.now }
{
    for byte in word {
        if !byte.is_ascii_digit() {
            return false;
        }
    }
    true
}

/// Whether a word is a number.
pub fn is_number(word: &[u8]) -> bool
    ensures { result ≡ is_number word.now }
{
    match word {
        [] | [b'0', _, ..] => false,
        _ => are_digits(word),
    }
}

/// The number with one more digit at its end, where it isn't above the greatest.
fn with_digit(number: u64, digit: u8, greatest: u64) -> Option<u64>
    ensures { result ≡ (if nat_lt (number * 10 + digit) (greatest + 1) then Some (number * 10 + digit) else None) }
{
    let longer = number.checked_mul(10)?.checked_add(u64::from(digit))?;
    if longer <= greatest {
        Some(longer)
    } else {
        None
    }
}

/// The number that digits write, where it isn't above the greatest. It stops at the first digit that is too many.
fn digits_up_to(word: &[u8], greatest: u64) -> Option<u64>
    ensures value { result ≡
        (if all_ascii_digits word.now && nat_lt (digits_value 10 word.now) (greatest + 1)
        then Some (digits_value 10 word.now) else None) }
    ensures below { IfSome result (λ n. n < greatest + 1) }
{
    let mut value: u64 = 0;
    for byte in word {
        if !byte.is_ascii_digit() {
            return None;
        }
        value = with_digit(value, *byte - b'0', greatest)?;
    }
    Some(value)
}

/// The number that a word spells, where it isn't above the greatest.
#[tactic(auto, unfolding(crate::specs::Numbers::number_below))]
pub fn number_up_to(word: &[u8], greatest: u64) -> Option<u64>
    ensures value { result ≡ number_below (greatest + 1) word.now }
    ensures below { IfSome result (λ n. n < greatest + 1) }
{
    match word {
        [] | [b'0', _, ..] => None,
        _ => digits_up_to(word, greatest),
    }
}

/// The number that a word spells, where it is below the limit.
pub fn number_below(word: &[u8], limit: u64) -> Option<u64>
    requires { 0 < limit }
    ensures value { result ≡ number_below limit word.now }
    ensures below { IfSome result (λ n. n < limit) }
{
    number_up_to(word, limit - 1)
}

/// The number of 32 bits that a word spells, where it is below the limit.
pub fn small_number_below(word: &[u8], limit: u32) -> Option<u32>
    requires { 0 < limit }
    ensures value { result ≡ number_below limit word.now }
    ensures below { IfSome result (λ n. n < limit) }
{
    let number = number_below(word, u64::from(limit))?;
    Some(number as u32)
}

/// The number of 8 bits that a word spells.
pub fn byte_number(word: &[u8]) -> Option<u8>
    ensures { result ≡ number_below (2 ^ 8) word.now }
{
    let number = number_up_to(word, 255)?;
    Some(number as u8)
}

/// The number of 32 bits that a word spells.
pub fn small_number(word: &[u8]) -> Option<u32>
    ensures { result ≡ number_below (2 ^ 32) word.now }
{
    let number = number_up_to(word, 4_294_967_295)?;
    Some(number as u32)
}

/// The number of 64 bits that a word spells.
pub fn large_number(word: &[u8]) -> Option<u64>
    ensures { result ≡ number_below (2 ^ 64) word.now }
{
    number_up_to(word, u64::MAX)
}

/// The number that a word spells, where it is one from the least to the greatest.
#[tactic(auto, unfolding(crate::specs::Numbers::number_below, crate::specs::Numbers::number_within))]
pub fn number_within(word: &[u8], least: u64, greatest: u64) -> Option<u64>
    ensures value { result ≡ number_within least greatest word.now }
    ensures within { IfSome result (λ n. (least ≤ n) × (n ≤ greatest)) }
{
    let number = number_up_to(word, greatest)?;
    if number >= least { Some(number) } else { None }
}
