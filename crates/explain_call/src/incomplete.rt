//! What is told of a legal trace that isn't complete.
ghost use Rattle.std.specs.Prelude.{◌≡◌, ◌+◌, ◌≤◌, IfOk, IsTrue, length};
ghost use Rattle.std.specs.List.{list_all};
ghost use Rattle.explain_call.specs.Missing.{incomplete_text};
ghost use Rattle.trace_model.specs.Printable.{is_printable};

use crate::missing::put_missing;
use call_parts::verdict_text;
use cam_types::{NoMemory, Script};
use std::alloc::Global;
use trace_model::{Entry, MissingPart, Verdict};
use trace_text::Printer;
use wrong_words::LINE_LIMIT;

/// The text of a legal trace that lacks the part first, and whose first entry's line has the number.
#[tactic(auto, unfolding(crate::specs::Missing::incomplete_text))]
pub fn incomplete_text(
    alloc: Global,
    printer: &mut Printer,
    script: &Script,
    entries: &[Entry],
    number: u64,
    part: MissingPart,
) -> Result<Vec<u8>, NoMemory>
    requires printable { IsTrue (list_all is_printable entries.now) }
    requires numbers { number + length entries.now ≤ LINE_LIMIT }
    ensures { IfOk result (λ text. text.items ≡ incomplete_text script.now number entries.now part) }
{
    let mut text = verdict_text(alloc, Verdict::Incomplete { part })?;
    put_missing(&mut text, alloc, printer, script, entries, number)?;
    Ok(text)
}
