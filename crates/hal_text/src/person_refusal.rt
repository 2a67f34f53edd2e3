//! The line that refuses a text, for a person.
ghost use Rattle.std.specs.Prelude.{◌≡◌, IfOk};
ghost use Rattle.hal_text.specs.PersonRefusal.{cause_sentence, refused_text};

use crate::Cause;
use cam_types::NoMemory;
use std::alloc::Global;

/// Why a text is refused, in a sentence.
fn cause_sentence(cause: Cause) -> &'static str
    ensures { result.now ≡ cause_sentence cause }
{
    match cause {
        Cause::Truncated => "no line counts, and the first one that does is to be hal 1 K",
        Cause::BadNumber => "a number isn't in its one spelling, or is out of its range",
        Cause::BadLine => "the line is none of a hal log, or ends a call that never began",
        Cause::TooLong => "the text has more than 134,217,728 bytes",
    }
}

/// The line that refuses a text: `refused hal LINE CAUSE: SENTENCE`.
#[tactic(auto, unfolding(crate::specs::PersonRefusal::refused_text))]
pub fn refused_for_person(alloc: Global, line: u32, cause: Cause) -> Result<Vec<u8>, NoMemory>
    ensures { IfOk result (λ text. text.items ≡ refused_text line cause) }
{
    let number = cause.number();
    let sentence = cause_sentence(cause);
    let mut out = String::new(alloc);
    writeln!(&mut out, "refused hal {line} {number}: {sentence}")?;
    Ok(out.into_bytes())
}
