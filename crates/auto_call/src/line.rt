//! What a line means by its words.
ghost use Rattle.std.specs.Prelude.{◌≡◌, IsTrue, IfOk};
ghost use Rattle.text_parts.specs.Words.{loose_words};
ghost use Rattle.auto_call.specs.Lines.{scene_line, scene_of};
ghost use Rattle.auto_call.specs.Valid.{is_scene};

use crate::text::Scene;
use call_parts::{number_from_to, two_numbers};
use text_parts::{Cause, next_loose_word};

/// `PATTERN LEVEL FRAMES`.
#[tactic(auto, unfolding(crate::specs::Lines::scene_of))]
fn scene_of(words: &[u8]) -> Result<Scene, Cause>
    ensures value { result ≡ scene_of (loose_words words.now) }
    ensures valid { IfOk result (λ scene. IsTrue (is_scene scene)) }
{
    let (word, rest) = next_loose_word(words).ok_or(Cause::Missing)?;
    let pattern = number_from_to(word, 0, 1)? as u8;
    let (level, frames) = two_numbers(rest, 255, 64)?;
    Ok(Scene {
        pattern,
        level,
        frames,
    })
}

/// The scene of a line that is `scene PATTERN LEVEL FRAMES`.
pub fn scene_line(word: &[u8], rest: &[u8]) -> Result<Scene, Cause>
    ensures value { result ≡ scene_line word.now (loose_words rest.now) }
    ensures valid { IfOk result (λ scene. IsTrue (is_scene scene)) }
{
    if word == b"scene".as_slice() {
        scene_of(rest)
    } else {
        Err(Cause::UnknownWord)
    }
}
