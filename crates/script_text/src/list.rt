//! Lists of words: the streams of a `configure`, the captures of a `burst` or `repeat`.

ghost use Rattle.std.specs.Prelude.{◌≡◌};
ghost use Rattle.text_parts.specs.Words.{loose_words};
ghost use Rattle.text_parts.specs.Values.{all_of};
ghost use Rattle.script_text.specs.Values.{spec_of, item_of};
ghost use Rattle.text_parts.specs.LineWords.{many, limited, past_limit, behind};
ghost use Rattle.script_text.specs.Within.{specs_within, items_within};
ghost use Rattle.text_parts.specs.Reader.{Gives};

use crate::item::item_of;
use crate::stream::spec_of;
use cam_types::{ItemList, SPEC_LIMIT, SpecList};
use std::alloc::Global;
use text_parts::{Cause, LineRefused, next_loose_word};

/// The cause of a line that has too many streams, by the words behind the first that is too many.
fn past_specs(words: &[u8]) -> Cause
    ensures { result ≡ past_limit (all_of spec_of (loose_words words.now)) }
{
    let mut rest = words;
    while let Some((word, after)) = next_loose_word(rest) {
        if spec_of(word).is_none() {
            return Cause::BadNumber;
        }
        rest = after;
    }
    Cause::Limit
}

/// The streams of a `configure`.
pub fn specs_of(alloc: Global, words: &[u8]) -> Result<SpecList, LineRefused>
    ensures { Gives result (limited specs_within (many spec_of (loose_words words.now))) }
{
    let mut specs = SpecList::new(alloc);
    let mut rest = words;
    while let Some((word, after)) = next_loose_word(rest) {
        let Some(spec) = spec_of(word) else {
            return Err(LineRefused::Bad(Cause::BadNumber));
        };
        if specs.len() >= SPEC_LIMIT {
            return Err(LineRefused::Bad(past_specs(after)));
        }
        specs.push(spec)?;
        rest = after;
    }
    Ok(specs)
}

/// The cause of a line that has too many captures, by the words behind the first that is too many.
fn past_items(words: &[u8]) -> Cause
    ensures { result ≡ past_limit (all_of item_of (loose_words words.now)) }
{
    let mut rest = words;
    while let Some((word, after)) = next_loose_word(rest) {
        if item_of(word) == Err(Cause::BadNumber) {
            return Cause::BadNumber;
        }
        rest = after;
    }
    Cause::Limit
}

/// The captures of a `burst` or a `repeat`.
pub fn items_of(alloc: Global, words: &[u8], limit: u32) -> Result<ItemList, LineRefused>
    ensures { Gives result (limited (items_within limit) (many item_of (loose_words words.now))) }
{
    let mut items = ItemList::new(alloc);
    let mut rest = words;
    while let Some((word, after)) = next_loose_word(rest) {
        let item = match item_of(word) {
            Ok(item) => item,
            Err(Cause::Limit) => return Err(LineRefused::Bad(past_items(after))),
            Err(cause) => return Err(LineRefused::Bad(cause)),
        };
        if items.len() >= limit {
            return Err(LineRefused::Bad(past_items(after)));
        }
        items.push(item)?;
        rest = after;
    }
    Ok(items)
}
