//! Scenes read from their text.
ghost use Rattle.std.specs.Prelude.{◌≡◌, ◌<◌, ◌^◌, IfOk, IsTrue, length};
ghost use Rattle.text_parts.specs.Reader.{Answers, GivesBy};
ghost use Rattle.auto_call.specs.Grammar.{added, auto_text_of};
ghost use Rattle.auto_call.specs.Valid.{frames_of, is_scene, is_valid};

use crate::draft::Draft;
use crate::line::scene_line;
use crate::stage::Stage;
use crate::text::{AutoText, Scene, SceneList};
use call_parts::{LineText, named_number, read_text};
use std::alloc::Global;
use text_parts::{Cause, LineRefused, TextRefused};

/// The most frames of all scenes.
const FRAME_LIMIT: u64 = 64;

/// The frames of the scenes.
fn frames_of(scenes: &[Scene]) -> u64
    requires { length scenes.now < 2 ^ 32 }
    ensures { result ≡ frames_of scenes.now }
{
    scenes.iter().map(|scene| u64::from(scene.frames)).sum()
}

/// A text with one more scene.
fn add_scene(mut text: AutoText, scene: Scene) -> Result<Draft, LineRefused>
    requires text { IsTrue (is_valid text) }
    requires scene { IsTrue (is_scene scene) }
    ensures { GivesBy (λ d. d.stage) result (added text scene) }
{
    let frames = frames_of(text.scenes.as_slice());
    if frames.saturating_add(u64::from(scene.frames)) > FRAME_LIMIT {
        return Err(LineRefused::Bad(Cause::Limit));
    }
    text.scenes.push(scene)?;
    Ok(Draft {
        stage: Stage::Whole(text),
    })
}

impl LineText for Draft {
    type Text = AutoText;

    ghost use Rattle.std.specs.Prelude.{IsTrue};
    ghost use Rattle.auto_call.specs.declared.stage.Stage.{Stage as AStage};
    ghost use Rattle.auto_call.specs.Grammar.{auto_text};
    ghost use Rattle.auto_call.specs.Valid.{is_valid};

    ghost Stage = { AStage };

    ghost stage = { λ draft. draft.stage };

    ghost grammar = { auto_text };

    ghost is_fit = { λ text. IsTrue (is_valid text) };

    fn name() -> &'static str {
        "auto"
    }

    fn begin(_alloc: Global) -> Draft {
        Draft {
            stage: Stage::Named,
        }
    }

    #[tactic(auto, unfolding(crate::specs::Grammar::with_line))]
    fn with_line(self, alloc: Global, word: &[u8], rest: &[u8]) -> Result<Draft, LineRefused> {
        let Draft { stage } = self;
        match stage {
            Stage::Named => {
                let target = named_number("target", word, rest, 16, 240)?;
                Ok(Draft {
                    stage: Stage::Aimed { target },
                })
            }
            Stage::Aimed { target } => {
                let iso = named_number("iso", word, rest, 100, 1_600)?;
                Ok(Draft {
                    stage: Stage::Whole(AutoText {
                        target,
                        iso,
                        scenes: SceneList::new(alloc),
                    }),
                })
            }
            Stage::Whole(text) => {
                let scene = scene_line(word, rest)?;
                add_scene(text, scene)
            }
        }
    }

    fn finish(self) -> Option<AutoText> {
        let Draft { stage } = self;
        match stage {
            Stage::Whole(text) => Some(text),
            Stage::Named | Stage::Aimed { .. } => None,
        }
    }
}

/// Reads the text of automatic exposure, as `docs/FORMATS.md` has it: `read_text` of `call_parts` says in what time, and
/// which line a refusal names.
pub fn read(alloc: Global, bytes: &[u8]) -> Result<AutoText, TextRefused>
    // What the text means, unless memory ran out.
    ensures exact { Answers result (auto_text_of bytes.now) }
    // Each number is in its range, and the frames are 64 at most together.
    ensures valid { IfOk result (λ text. IsTrue (is_valid text)) }
{
    read_text::<Draft>(alloc, bytes)
}
