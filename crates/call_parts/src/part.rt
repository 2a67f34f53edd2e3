//! How the judge's input is cut.
ghost use Rattle.std.specs.Prelude.{◌≡◌, ◌≤◌, ◌==◌, ◌+◌, length, take, count_by};
ghost use Rattle.call_parts.specs.Parts.{first_line, is_trace_line, script_part, trace_part, trace_start};

use text_parts::{next_loose_word, split_at_byte, without_return};

/// An input in its two parts.
#[derive(Clone, Copy)]
pub struct Parts<'i> {
    /// The text of the script.
    pub script: &'i [u8],
    /// The text of the trace.
    pub trace: &'i [u8],
    /// The number of the trace's first line.
    pub first_line: usize,
}

/// Whether the first word of the line is `trace`.
fn is_trace_line(line: &[u8]) -> bool
    ensures { result ≡ is_trace_line line.now }
{
    match next_loose_word(line) {
        Some((word, _)) => word == b"trace".as_slice(),
        None => false,
    }
}

/// The place of the first line whose first word is `trace`.
#[tactic(auto, unfolding(crate::specs::Parts::trace_start))]
fn trace_start(input: &[u8]) -> usize
    ensures value { result ≡ trace_start input.now }
    ensures within { result ≤ length input.now }
{
    let mut start = 0;
    let mut rest = input;
    while let Some((line, after)) = split_at_byte(rest, b'\n') {
        if is_trace_line(without_return(line)) {
            return start;
        }
        start += line.len() + 1;
        rest = after;
    }
    if is_trace_line(rest) {
        start
    } else {
        input.len()
    }
}

/// How many lines of the text end.
fn ended_lines(text: &[u8]) -> usize
    ensures value { result ≡ count_by (λ b. b == 10) text.now }
    ensures within { result ≤ length text.now }
{
    text.iter().filter(|byte| **byte == b'\n').count()
}

/// The two parts of an input.
pub fn parts_of(input: &[u8]) -> Parts<'_>
    ensures script { result.script.now ≡ script_part input.now }
    ensures trace { result.trace.now ≡ trace_part input.now }
    ensures first_line { result.first_line ≡ first_line input.now }
    ensures within { result.first_line ≤ length input.now + 1 }
{
    let (script, trace) = input.split_at(trace_start(input));
    Parts {
        script,
        trace,
        first_line: ended_lines(script) + 1,
    }
}
