//! The first line of a trace.

ghost use Rattle.std.specs.Prelude.{◌≡◌};
ghost use Rattle.text_parts.specs.Words.{strict_words_behind};
ghost use Rattle.trace_reader.specs.Lines.{no_profile, profile_of, version_of, named_profile};

use crate::cause::Cause;
use crate::line::plain_words;
use crate::number::profile_number;
use crate::word::both;
use cam_types::Profile;
use text_parts::{has_text, next_strict_word, three_strict_words};

/// A first line of the first version has no further words.
fn no_profile(rest: &[u8]) -> Result<Option<Profile>, Cause>
    ensures { result ≡ no_profile (strict_words_behind rest.now) }
{
    match next_strict_word(rest) {
        None => Ok(None),
        Some(_) => Err(Cause::BadLine),
    }
}

/// `DEPTH RAW YUV` of a first line of the second version.
fn profile_of(rest: &[u8]) -> Result<Option<Profile>, Cause>
    ensures { result ≡ profile_of (strict_words_behind rest.now) }
{
    let Some((depth, raw, yuv)) = three_strict_words(rest) else {
        return Err(Cause::BadLine);
    };
    let (depth, (raw, yuv)) = both(
        profile_number(depth),
        both(profile_number(raw), profile_number(yuv)),
    )?;
    Ok(Some(Profile { depth, raw, yuv }))
}

/// The version, and what stands behind it.
#[tactic(auto, unfolding(crate::specs::Lines::version_of))]
fn version_of(rest: &[u8]) -> Result<Option<Profile>, Cause>
    ensures { result ≡ version_of (strict_words_behind rest.now) }
{
    let Some((version, rest)) = next_strict_word(rest) else {
        return Err(Cause::BadLine);
    };
    if has_text(version, "1") {
        no_profile(rest)
    } else if has_text(version, "2") {
        profile_of(rest)
    } else {
        Err(Cause::BadLine)
    }
}

/// The profile that a first line names, if it names one.
#[tactic(auto, unfolding(crate::specs::Lines::named_profile))]
pub fn named_profile(line: &[u8]) -> Result<Option<Profile>, Cause>
    ensures { result ≡ named_profile line.now }
{
    let Some((word, rest)) = plain_words(line) else {
        return Err(Cause::BadLine);
    };
    if has_text(word, "trace") {
        version_of(rest)
    } else {
        Err(Cause::BadLine)
    }
}
