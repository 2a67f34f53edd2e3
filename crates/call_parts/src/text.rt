//! A call that reads a text line by line.
ghost use Rattle.std.specs.Prelude.{◌≡◌, ℕ, List, IfOk};
ghost use Rattle.call_parts.specs.Answers.{AnswersWithMemory, TellsBy};
ghost use Rattle.call_parts.specs.Reading.{refused_line};
ghost use Rattle.call_parts.specs.Status.{status_number};

use crate::{InputWork, LineText, Status, answer_made, read_text};
use cam_types::NoMemory;
use io_edge::Sink;
use std::alloc::Global;
use std::marker::PhantomData;
use text_parts::{Cause, TextRefused};

/// What a call makes of a text.
pub trait TextWork: LineText {
    /// The whole text that is told of what a text means, at status 0.
    ghost is_told: { Self.Text → List ℕ → Type 0 };

    /// Answers what a text means.
    fn answer_text<K: Sink>(alloc: Global, text: Self::Text, sink: &mut K) -> Status
        requires { Self.is_fit text }
        ensures { TellsBy (λ number told. (number ≡ 0) × is_told text told) (status_number result)
            (K.state sink.old) (K.state sink.new) };
}

/// An input that is read as a text, for what a call makes of that.
#[derive(Drop)]
pub struct TextInput<D>(pub PhantomData<D>);

impl<D: TextWork> InputWork for TextInput<D> {
    ghost use Rattle.text_parts.specs.declared.cause.Cause.TheVariants.{Limit};
    ghost use Rattle.call_parts.specs.Reading.{OfText, refused_line};

    ghost limit = { 65536 };

    ghost belongs = { λ _. OfText D.grammar D.is_told };

    ghost refusal = { λ _. refused_line D.grammar.name 0 Limit };

    fn refuse_long<K: Sink>(&self, alloc: Global, sink: &mut K) -> Status {
        refuse_text(alloc, D::name(), 0, Cause::Limit, sink)
    }

    fn answer_whole<K: Sink>(&self, alloc: Global, input: &[u8], sink: &mut K) -> Status {
        match read_text::<D>(alloc, input) {
            Err(TextRefused::NoMemory) => Status::NoMemory,
            Err(TextRefused::Bad { line, cause }) => {
                refuse_text(alloc, D::name(), line, cause, sink)
            }
            Ok(text) => D::answer_text(alloc, text, sink),
        }
    }

    #[tactic(auto, using(crate::proofs::Texts::of_text, crate::proofs::Texts::long_text))]
    fn keeps_the_laws(&self) {}
}

/// Refuses a text of the name.
fn refuse_text<K: Sink>(alloc: Global, name: &str, line: u32, cause: Cause, sink: &mut K) -> Status
    ensures { AnswersWithMemory 1 (refused_line name.now line cause) (status_number result)
        (K.state sink.old) (K.state sink.new) }
{
    answer_made(
        refused_line(alloc, name, line, cause),
        Status::Refused,
        sink,
    )
}

/// The line that refuses a text: `refused NAME LINE CAUSE`.
fn refused_line(alloc: Global, name: &str, line: u32, cause: Cause) -> Result<Vec<u8>, NoMemory>
    ensures { IfOk result (λ text. text.items ≡ refused_line name.now line cause) }
{
    let cause = cause.number();
    let mut out = String::new(alloc);
    writeln!(&mut out, "refused {name} {line} {cause}")?;
    Ok(out.into_bytes())
}
