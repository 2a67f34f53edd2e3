//! The timeline of a hal log: it is read, judged, and drawn.
ghost use Rattle.std.specs.Prelude.{◌≡◌, IsTrue, if◌then◌else◌};
ghost use Rattle.call_parts.specs.Answers.{AnswersWithMemory, TellsBy};
ghost use Rattle.hal_text.specs.PersonRefusal.{refused_text as refused_log_text};
ghost use Rattle.hal_model.specs.Fits.{is_valid};
ghost use Rattle.hal_text.specs.Meaning.{log_of};
ghost use Rattle.run_views.specs.Fronts.{text_in};
ghost use Rattle.run_views.specs.Logs.{log_status, log_text};
ghost use Rattle.run_views.specs.Shown.{ShowsLog};
ghost use Rattle.call_parts.specs.Status.{status_number};

use crate::form::{Form, text_in};
use call_parts::{Status, answer_made};
use hal_text::{Cause, HalLog, LogRefused, read, refused_for_person};
use hal_timeline::{Judged, chart_of};
use io_edge::Sink;
use std::alloc::Global;

/// 1 where a rule is broken.
fn status_of(broken: bool) -> Status
    ensures { status_number result ≡ (if broken then 1 else 0) }
{
    if broken {
        Status::Refused
    } else {
        Status::Done
    }
}

/// Writes the timeline of a log that was judged.
fn write_judged<K: Sink>(alloc: Global, form: Form, judged: &Judged, sink: &mut K) -> Status
    ensures { AnswersWithMemory (if judged.now.broken then 1 else 0) (text_in form judged.now.chart) (status_number result)
        (K.state sink.old) (K.state sink.new) }
{
    let text = text_in(alloc, form, &judged.chart);
    answer_made(text, status_of(judged.broken), sink)
}

/// Writes the timeline of a log.
fn write_log<K: Sink>(alloc: Global, form: Form, log: &HalLog, sink: &mut K) -> Status
    requires { IsTrue (is_valid log.now.parts log.now.events) }
    ensures { AnswersWithMemory (log_status log.now) (log_text form log.now) (status_number result)
        (K.state sink.old) (K.state sink.new) }
{
    let Ok(judged) = chart_of(alloc, log) else {
        return Status::NoMemory;
    };
    write_judged(alloc, form, &judged, sink)
}

/// Refuses a text, as `hal` does.
fn refuse_log<K: Sink>(alloc: Global, line: u32, cause: Cause, sink: &mut K) -> Status
    ensures { AnswersWithMemory 1 (refused_log_text line cause) (status_number result) (K.state sink.old) (K.state sink.new) }
{
    answer_made(
        refused_for_person(alloc, line, cause),
        Status::Refused,
        sink,
    )
}

/// Writes the timeline of an input that is a hal log.
pub fn show_log<K: Sink>(alloc: Global, form: Form, input: &[u8], sink: &mut K) -> Status
    ensures { TellsBy (ShowsLog form (log_of input.now)) (status_number result) (K.state sink.old) (K.state sink.new) }
{
    match read(alloc, input) {
        Err(LogRefused::NoMemory) => Status::NoMemory,
        Err(LogRefused::Bad { line, cause }) => refuse_log(alloc, line, cause, sink),
        Ok(log) => write_log(alloc, form, &log, sink),
    }
}
