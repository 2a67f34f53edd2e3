//! What the words ask for.
ghost use Rattle.std.specs.Prelude.{◌≡◌, ◌≢◌, ◌≤◌, true, false, is_some, IfSome, Option};
ghost use Rattle.std.specs.Io.KnownBytes.{IsAtEnd};
ghost use Rattle.io_edge.specs.States.{Writes};
ghost use Rattle.call_parts.specs.Answers.{Answers};
ghost use Rattle.call_parts.specs.Ends.{CountsSink, CountsSource, ReadsBy};
ghost use Rattle.tools_top.specs.Commands.{IsDone, TellsOfTool, drawing_of, form_of};
ghost use Rattle.tools_top.specs.Help.{help_text, usage_line};
ghost use Rattle.tools_top.specs.Words.{limit_of};
ghost use Rattle.tools_top.specs.Tools.{tool_of};
ghost use Rattle.call_parts.specs.Status.{status_number};

use crate::{Tool, tool_of};
use call_parts::{Status, answer};
use cam_types::{FrameNo, StreamIx};
use explain_call::explain_call;
use hal_call::{Form, hal_call, hal_of_call};
use io_edge::{Sink, Source};
use run_views::{Form as Drawing, candidates_call, timeline_call};
use std::alloc::Global;
use video_call::{picture_call, video_call};

/// The line of words that ask for no tool.
const USAGE_LINE: &[u8] =
    b"usage: camera hal [--plain] [--strict] | hal-of | candidates | explain | \
      timeline [--perfetto] | video STREAM | picture FRAME STREAM | help\n";

/// What `help` writes: what the program does, and the usage line.
const HELP_TEXT: &[u8] = b"camera: judges logs of camera HALs, explains verdicts and shows runs\n\
      usage: camera hal [--plain] [--strict] | hal-of | candidates | explain | \
      timeline [--perfetto] | video STREAM | picture FRAME STREAM | help\n";

/// Runs the tool that the words ask for.
pub fn tools_main<S: Source, K: Sink>(
    alloc: Global,
    words: &[&str],
    source: &mut S,
    sink: &mut K,
) -> Status
    // The status and the text are those that belong to the tool that the words ask for, and to the input's meaning.
    ensures tells { TellsOfTool (tool_of words.now) (S.left source.old) (status_number result) (K.state sink.old)
        (K.state sink.new) }
    ensures usage_only { status_number result ≡ 2 → tool_of words.now ≡ Option.None }

    // Status 0: the help text; or the source was read to its end, and what the tool is asked for was done and written.
    ensures help_done { tool_of words.now ≡ Option.Some Tool.Help → status_number result ≡ 0
        → Writes (K.state sink.old) (K.state sink.new) help_text }
    ensures done { is_some (limit_of (tool_of words.now)) ≡ true → status_number result ≡ 0 → IsAtEnd (S.left source.new)
        × IfSome (S.left source.old)
        (λ input. IsDone (tool_of words.now) input (K.state sink.old) (K.state sink.new)) }
    ensures done_tool { status_number result ≡ 0 → is_some (tool_of words.now) ≡ true }

    // Other words leave the source as it is, and end with 0, 2 or 4.
    ensures unread { is_some (limit_of (tool_of words.now)) ≡ false → (S.left source.new ≡ S.left source.old)
        × (S.faults source.new ≡ S.faults source.old) × (status_number result ≢ 1) × (status_number result ≢ 3)
        × (status_number result ≢ 5) }
    // The source's count of faults rose at 3 alone, and the sink's at 4 alone; at 3 and 5 nothing was written. At 0 a tool
    // that reads has read the source to its end; where it has another answer, too, or there is more than the limit.
    ensures source { CountsSource (status_number result) (S.faults source.old) (S.faults source.new) }
    ensures sink { CountsSink (status_number result) (K.state sink.old) (K.state sink.new) }
    ensures read { IfSome (limit_of (tool_of words.now)) (λ limit. ReadsBy limit (status_number result) (S.left source.old)
        (S.left source.new)) }
    ensures known { status_number result ≤ 5 }
{
    match tool_of(words) {
        Some(Tool::Hal { plain, strict }) => hal_call(alloc, source, sink, form_of(plain), strict),
        Some(Tool::HalOf) => hal_of_call(alloc, source, sink),
        Some(Tool::Candidates) => candidates_call(alloc, source, sink),
        Some(Tool::Explain) => explain_call(alloc, source, sink),
        Some(Tool::Timeline { perfetto }) => timeline_call(
            alloc,
            source,
            sink,
            drawing_of(perfetto),
        ),
        Some(Tool::Video { stream }) => video_call(alloc, StreamIx(stream), source, sink),
        Some(Tool::Picture { frame, stream }) => {
            picture_call(alloc, FrameNo(frame), StreamIx(stream), source, sink)
        }
        Some(Tool::Help) => help_call(sink),
        None => usage(sink),
    }
}

/// For whom the report is written.
fn form_of(plain: bool) -> Form
    ensures { result ≡ form_of plain }
{
    if plain { Form::Plain } else { Form::Person }
}

/// In which form a timeline is written.
fn drawing_of(perfetto: bool) -> Drawing
    ensures { result ≡ drawing_of perfetto }
{
    if perfetto {
        Drawing::Perfetto
    } else {
        Drawing::Svg
    }
}

/// Writes the usage line.
fn usage<K: Sink>(sink: &mut K) -> Status
    ensures { Answers 2 usage_line (status_number result) (K.state sink.old) (K.state sink.new) }
{
    answer(sink, USAGE_LINE, Status::Usage)
}

/// Writes what the program does, and the usage line. It takes no memory.
pub fn help_call<K: Sink>(sink: &mut K) -> Status
    ensures { Answers 0 help_text (status_number result) (K.state sink.old) (K.state sink.new) }
{
    answer(sink, HELP_TEXT, Status::Done)
}
