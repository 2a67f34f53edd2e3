//! What may stand in the places of a line.
ghost use Rattle.std.specs.Prelude.{◌≡◌};
ghost use Rattle.wrong_words.specs.Sentences.{kind_text};

use crate::WordKind;

/// What may stand in a place that asks for the kind.
#[tactic(auto, unfolding(crate::specs::Sentences::kind_text))]
pub fn kind_text(kind: WordKind) -> &'static str
    ensures { result.now ≡ kind_text kind }
{
    match kind {
        WordKind::Any => "a word",
        WordKind::Number => "a number from 0 to 4294967295",
        WordKind::Byte => "a number from 0 to 255",
        WordKind::Count => "a number from 1 to 4294967295",
        WordKind::ProfileNumber => "a number from 1 to 16",
        WordKind::Time => "a number from 0 to 18446744073709551615",
        WordKind::PartNumber => "1, 2 or 3",
        WordKind::Item => "SETTINGS@TARGETS, as preview@0 or 2,128,10000000,100@0+1",
        WordKind::Spec => "FORMAT:WxH, as raw16:160x120, or in:FORMAT:WxH",
        WordKind::Buffer => "bB: b and a number from 0 to 4294967295",
        WordKind::Fence => "fF: f and a number from 0 to 4294967295",
        WordKind::FenceOrNone => "fF: f and a number from 0 to 4294967295, or -",
        WordKind::DeviceFence => "dK: d and a number from 0 to 4294967295",
        WordKind::ItemName => "rR.I with numbers from 0 to 4294967295",
        WordKind::Reply =>
            "rR, or of a configure S:bB+C, with numbers from 0 to 4294967295, S to 255",
        WordKind::Target => "S:bB:F with S from 0 to 255, a number B and a fence fF or -",
        WordKind::Bytes => "bytes of two hexadecimal digits each, 0 to 9 and a to f",
        WordKind::Digest => "64 hexadecimal digits, 0 to 9 and a to f",
    }
}
