//! Whether a word is of a kind.
ghost use Rattle.std.specs.Prelude.{◌≡◌};
ghost use Rattle.wrong_words.specs.Kinds.{fits};

use crate::script_word::{is_count, is_item, is_spec};
use crate::trace_word::{
    is_byte, is_bytes, is_digest, is_fence_or_none, is_item_name, is_lettered, is_reply, is_small,
    is_target,
};
use crate::word_kind::WordKind;
use text_parts::{large_number, number_within};

/// Whether the word is of the kind.
#[tactic(auto, unfolding(crate::specs::Kinds::fits))]
pub fn fits(kind: WordKind, word: &[u8]) -> bool
    ensures { result ≡ fits kind word.now }
{
    match kind {
        WordKind::Any => true,
        WordKind::Number => is_small(word),
        WordKind::Byte => is_byte(word),
        WordKind::Count => is_count(word),
        WordKind::ProfileNumber => number_within(word, 1, 16).is_some(),
        WordKind::Time => large_number(word).is_some(),
        WordKind::PartNumber => number_within(word, 1, 3).is_some(),
        WordKind::Item => is_item(word),
        WordKind::Spec => is_spec(word),
        WordKind::Buffer => is_lettered(word, b'b'),
        WordKind::Fence => is_lettered(word, b'f'),
        WordKind::FenceOrNone => is_fence_or_none(word),
        WordKind::DeviceFence => is_lettered(word, b'd'),
        WordKind::ItemName => is_item_name(word),
        WordKind::Reply => is_reply(word),
        WordKind::Target => is_target(word),
        WordKind::Bytes => is_bytes(word),
        WordKind::Digest => is_digest(word),
    }
}
