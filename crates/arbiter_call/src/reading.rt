//! What clients ask, read from its text.
ghost use Rattle.std.specs.Prelude.{◌≡◌, IfOk, IsTrue};
ghost use Rattle.text_parts.specs.Reader.{Answers, GivesBy};
ghost use Rattle.arbiter_call.specs.Ranges.{is_line};
ghost use Rattle.arbiter_call.specs.Grammar.{added, arbiter_text_of};
ghost use Rattle.arbiter_call.specs.Valid.{is_valid};

use crate::draft::{Draft, Stage};
use crate::text::{ArbiterText, LineList};
use crate::text_line::client_line;
use crate::{ArbiterLine, LINE_LIMIT};
use call_parts::{LineText, named_number, read_text};
use std::alloc::Global;
use text_parts::{Cause, LineRefused, TextRefused};

/// Reads what clients ask of cameras, as `docs/FORMATS.md` has it: `read_text` of `call_parts` says in what time, and
/// which line a refusal names.
pub fn read(alloc: Global, bytes: &[u8]) -> Result<ArbiterText, TextRefused>
    // What the text means, unless memory ran out.
    ensures exact { Answers result (arbiter_text_of bytes.now) }
    // Each number is in its range, and there are 128 lines at most.
    ensures valid { IfOk result (λ text. IsTrue (is_valid text)) }
{
    read_text::<Draft>(alloc, bytes)
}

/// A text with one more line.
fn add_line(mut text: ArbiterText, line: ArbiterLine) -> Result<Draft, LineRefused>
    requires text { IsTrue (is_valid text) }
    requires line { IsTrue (is_line text.cameras line) }
    ensures { GivesBy (λ d. d.stage) result (added text line) }
{
    if text.lines.len() >= LINE_LIMIT {
        return Err(LineRefused::Bad(Cause::Limit));
    }
    text.lines.push(line)?;
    Ok(Draft {
        stage: Stage::Whole(text),
    })
}

impl LineText for Draft {
    type Text = ArbiterText;

    ghost use Rattle.std.specs.Prelude.{IsTrue};
    ghost use Rattle.arbiter_call.specs.declared.draft.Stage.{Stage as AStage};
    ghost use Rattle.arbiter_call.specs.Grammar.{arbiter};
    ghost use Rattle.arbiter_call.specs.Valid.{is_valid};

    ghost Stage = { AStage };

    ghost stage = { λ draft. draft.stage };

    ghost grammar = { arbiter };

    ghost is_fit = { λ text. IsTrue (is_valid text) };

    fn name() -> &'static str {
        "arbiter"
    }

    fn begin(_alloc: Global) -> Draft {
        Draft {
            stage: Stage::Named,
        }
    }

    #[tactic(auto, unfolding(crate::specs::Grammar::with_line))]
    fn with_line(self, alloc: Global, word: &[u8], rest: &[u8]) -> Result<Draft, LineRefused> {
        let Draft { stage } = self;
        match stage {
            Stage::Named => {
                let cameras = named_number("cameras", word, rest, 1, 4)?;
                Ok(Draft {
                    stage: Stage::Whole(ArbiterText {
                        cameras,
                        lines: LineList::new(alloc),
                    }),
                })
            }
            Stage::Whole(text) => {
                let line = client_line(text.cameras, word, rest)?;
                add_line(text, line)
            }
        }
    }

    fn finish(self) -> Option<ArbiterText> {
        let Draft { stage } = self;
        match stage {
            Stage::Whole(text) => Some(text),
            Stage::Named => None,
        }
    }
}
