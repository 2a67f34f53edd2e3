//! Settings, targets and captures as they are written.

ghost use Rattle.std.specs.Prelude.{◌≡◌, slice_set};
ghost use Rattle.text_parts.specs.Values.{four_numbers};
ghost use Rattle.script_text.specs.Values.{settings_of, joined_targets, targets_of, item_of};
ghost use Rattle.text_parts.specs.LineWords.{good, limited};
ghost use Rattle.script_text.specs.Within.{targets_within, item_within};

use cam_types::{Item, Settings, TARGET_LIMIT, Targets};
use text_parts::{Cause, byte_number, four_numbers, has_text, split_at_byte, split_in_two};

/// The settings of the template for a preview.
const PREVIEW: Settings = Settings {
    pattern: 2,
    level: 128,
    exposure: 10_000_000,
    iso: 100,
};

/// The settings of the template for a still picture.
const STILL: Settings = Settings {
    pattern: 1,
    level: 200,
    exposure: 20_000_000,
    iso: 100,
};

/// A template, or four numbers.
#[tactic(auto, unfolding(crate::specs::Values::settings_of))]
fn settings_of(word: &[u8]) -> Option<Settings>
    ensures { result ≡ settings_of word.now }
{
    if has_text(word, "preview") {
        Some(PREVIEW)
    } else if has_text(word, "still") {
        Some(STILL)
    } else {
        four_numbers(word)
    }
}

/// Puts a target at its place, if there is one.
fn put_target(list: &mut [u8], place: usize, stream: u8)
    ensures { list.new ≡ slice_set list.old place stream }
{
    if place < list.len() {
        list[place] = stream;
    }
}

/// Streams joined by `+`. Those past the limit are read too, since a bad number is told first.
fn joined_targets(word: &[u8]) -> Result<Targets, Cause>
    ensures { result ≡ limited targets_within (good (joined_targets word.now)) }
{
    let mut list = [0; 8];
    let mut count = 0usize;
    let mut rest = word;
    while let Some((stream, after)) = split_at_byte(rest, b'+') {
        let Some(stream) = byte_number(stream) else {
            return Err(Cause::BadNumber);
        };
        put_target(&mut list, count, stream);
        count += 1;
        rest = after;
    }
    let Some(stream) = byte_number(rest) else {
        return Err(Cause::BadNumber);
    };
    put_target(&mut list, count, stream);
    if count >= TARGET_LIMIT as usize {
        return Err(Cause::Limit);
    }
    Ok(Targets {
        count: count as u8 + 1,
        list,
    })
}

/// `-`, or streams.
#[tactic(auto, unfolding(crate::specs::Values::targets_of))]
fn targets_of(word: &[u8]) -> Result<Targets, Cause>
    ensures { result ≡ limited targets_within (good (targets_of word.now)) }
{
    match word {
        b"-" => Ok(Targets {
            count: 0,
            list: [0; 8],
        }),
        _ => joined_targets(word),
    }
}

/// `SETTINGS@TARGETS`.
#[tactic(auto, unfolding(crate::specs::Values::item_of))]
pub fn item_of(word: &[u8]) -> Result<Item, Cause>
    ensures { result ≡ limited item_within (good (item_of word.now)) }
{
    let Some((settings, targets)) = split_in_two(word, b'@') else {
        return Err(Cause::BadNumber);
    };
    let Some(settings) = settings_of(settings) else {
        return Err(Cause::BadNumber);
    };
    let targets = targets_of(targets)?;
    Ok(Item { settings, targets })
}
