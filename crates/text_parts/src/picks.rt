//! The numbers of a `pick`.
ghost use Rattle.std.specs.Prelude.{◌≡◌, IsTrue};
ghost use Rattle.text_parts.specs.Reader.{Gives};
ghost use Rattle.text_parts.specs.Values.{all_of, number};
ghost use Rattle.text_parts.specs.LineWords.{behind, few, limited, many, past_limit};
ghost use Rattle.text_parts.specs.Words.{loose_words};

use crate::cause::{Cause, LineRefused};
use crate::{next_loose_word, small_number};
use cam_types::PickList;

/// The cause of a line that has too many numbers, by the words behind the first that is too many.
fn past_numbers(words: &[u8]) -> Cause
    ensures { result ≡ past_limit (all_of number (loose_words words.now)) }
{
    let mut rest = words;
    while let Some((word, after)) = next_loose_word(rest) {
        if small_number(word).is_none() {
            return Cause::BadNumber;
        }
        rest = after;
    }
    Cause::Limit
}

/// The picks with those of one more line, of which a text may have so many together.
pub fn with_picks(mut picks: PickList, words: &[u8], limit: u32) -> Result<PickList, LineRefused>
    requires { IsTrue (few limit picks) }
    ensures { Gives result (limited (few limit) (behind picks (many number (loose_words words.now)))) }
{
    let mut rest = words;
    while let Some((word, after)) = next_loose_word(rest) {
        let Some(pick) = small_number(word) else {
            return Err(LineRefused::Bad(Cause::BadNumber));
        };
        if picks.len() >= limit {
            return Err(LineRefused::Bad(past_numbers(after)));
        }
        picks.push(pick)?;
        rest = after;
    }
    Ok(picks)
}
