//! What the words of a process ask for.
ghost use Rattle.std.specs.Prelude.{◌≡◌, ◌≢◌, ◌≤◌, ℕ, List, false, is_some, map, string_bytes, IfOk, IfSome};
ghost use Rattle.std.specs.Borrow.{Bor};
ghost use Rattle.call_parts.specs.Ends.{CountsSink, CountsSource, ReadsBy};
ghost use Rattle.call_parts.specs.Program.{number_of};
ghost use Rattle.call_parts.specs.Status.{status_number};
ghost use Rattle.tools_top.specs.Commands.{TellsOfTool};
ghost use Rattle.tools_top.specs.Tools.{tool_of};
ghost use Rattle.tools_top.specs.Words.{limit_of};

use crate::tools_main;
use call_parts::{Status, as_words};
use io_edge::{NoMemory, Sink, Source};
use std::alloc::Global;

/// Runs the tool that words of these texts ask for. Where there is no memory to hand them over, nothing is written.
pub fn answer_texts<S: Source, K: Sink>(
    alloc: Global,
    texts: &[String],
    source: &mut S,
    sink: &mut K,
) -> Result<Status, NoMemory>
    // What `tools_main` says of such words.
    ensures tells { (words : List (Bor (List ℕ))) → map (λ word. word.now) words ≡ map string_bytes texts.now →
        IfOk result (λ status. TellsOfTool (tool_of words) (S.left source.old) (status_number status)
        (K.state sink.old) (K.state sink.new)) }
    // By the number that the program ends with: the source's count of faults rose at 3 alone, and the sink's at 4 alone;
    // at 3 and 5, and so where there is no memory to hand the words over, nothing was written.
    ensures source { CountsSource (number_of result) (S.faults source.old) (S.faults source.new) }
    ensures sink { CountsSink (number_of result) (K.state sink.old) (K.state sink.new) }
    // At 0 a tool that reads has read the source to its end; where it has another answer, too, or there is more than the
    // limit. Words that ask for none leave the source as it is.
    ensures read { (words : List (Bor (List ℕ))) → map (λ word. word.now) words ≡ map string_bytes texts.now →
        IfSome (limit_of (tool_of words)) (λ limit. ReadsBy limit (number_of result) (S.left source.old)
        (S.left source.new)) }
    ensures unread { (words : List (Bor (List ℕ))) → map (λ word. word.now) words ≡ map string_bytes texts.now →
        is_some (limit_of (tool_of words)) ≡ false → (S.left source.new ≡ S.left source.old)
        × (S.faults source.new ≡ S.faults source.old) × (number_of result ≢ 1) × (number_of result ≢ 3) }
    ensures known { number_of result ≤ 5 }
{
    let words = as_words(alloc, texts)?;
    Ok(tools_main(alloc, words.as_slice(), source, sink))
}
