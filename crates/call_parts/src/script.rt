//! A call that reads a script.
ghost use Rattle.std.specs.Prelude.{ℕ, List, IsTrue};
ghost use Rattle.cam_types.specs.Script.{is_valid};
ghost use Rattle.cam_types.specs.declared.script.Script.{Script as AScript};
ghost use Rattle.call_parts.specs.Answers.{AreAnswers, TellsBy};
ghost use Rattle.call_parts.specs.Status.{status_number};

use crate::{InputWork, Status, refuse_script};
use cam_types::Script;
use io_edge::Sink;
use std::alloc::Global;
use text_parts::{Cause, TextRefused};

/// What a call makes of a script.
pub trait ScriptWork {
    /// The status and the whole text that belong to a script.
    ghost belongs: { Self → AScript → ℕ → List ℕ → Type 0 };

    /// Answers a script.
    fn answer_script<K: Sink>(&self, alloc: Global, script: Script, sink: &mut K) -> Status
        requires { IsTrue (is_valid script) }
        ensures { TellsBy (belongs self.now script) (status_number result) (K.state sink.old) (K.state sink.new) };

    /// It does nothing. The statuses that belong to a script are those of an answer.
    fn keeps_the_law(&self)
        ensures { (script : AScript) → AreAnswers (belongs self.now script) };
}

/// An input that is read as a script, for what a call makes of that.
#[derive(Drop)]
pub struct ScriptInput<W>(pub W);

impl<W: ScriptWork> InputWork for ScriptInput<W> {
    ghost use Rattle.call_parts.specs.Meanings.{OfScript};
    ghost use Rattle.call_parts.specs.Lines.{refused_script_text};

    ghost limit = { 65536 };

    ghost belongs = { λ work. OfScript (W.belongs work.0) };

    ghost refusal = { λ _. refused_script_text 0 37 };

    fn refuse_long<K: Sink>(&self, alloc: Global, sink: &mut K) -> Status {
        refuse_script(alloc, 0, Cause::Limit.number(), sink)
    }

    fn answer_whole<K: Sink>(&self, alloc: Global, input: &[u8], sink: &mut K) -> Status {
        match script_text::read(alloc, input) {
            Err(TextRefused::NoMemory) => Status::NoMemory,
            Err(TextRefused::Bad { line, cause }) => {
                refuse_script(alloc, line, cause.number(), sink)
            }
            Ok(script) => self.0.answer_script(alloc, script, sink),
        }
    }

    #[tactic(auto, using(crate::proofs::Meanings::of_script, crate::proofs::Meanings::long_script))]
    fn keeps_the_laws(&self) {
        self.0.keeps_the_law();
    }
}
