//! `hal`: a hal log is read and judged, and its report is written, for a person or for tools.
ghost use Rattle.std.specs.Prelude.{◌≡◌, [], true, IfOk, IsTrue, Result, length};
ghost use Rattle.std.specs.List.{list_all};
ghost use Rattle.call_parts.specs.Answers.{AnswersWithMemory, OnDone, Tells, TellsBy};
ghost use Rattle.call_parts.specs.Ends.{KeepsEnds};
ghost use Rattle.hal_text.specs.Meaning.{log_of};
ghost use Rattle.hal_model.specs.Fits.{is_valid, is_well_made};
ghost use Rattle.hal_text.specs.Plain.{has_line};
ghost use Rattle.hal_call.specs.Judging.{IsUnbroken, Judges, JudgesLog, refusal_text, report_status, told_text};
ghost use Rattle.call_parts.specs.Status.{status_number};

use crate::form::Form;
use call_parts::{InputWork, Status, answer, answer_input, answer_made};
use hal_judge::{Report, report_of};
use hal_model::Breach;
use hal_text::{
    Cause, HAL_BYTES, HalLog, LogRefused, each_breach_has_its_line, person_text, plain_text, read,
};
use io_edge::{NoMemory, Sink, Source};
use std::alloc::Global;

/// What `hal` makes of its input.
#[derive(Drop)]
struct Hal {
    form: Form,
    strict: bool,
}

impl InputWork for Hal {
    ghost use Rattle.hal_lines.specs.declared.cause.Cause.TheVariants.{TooLong};
    ghost use Rattle.hal_call.specs.Judging.{Judges, refusal_text};

    ghost limit = { 134217728 };

    ghost belongs = { λ hal. Judges hal.form hal.strict };

    ghost refusal = { λ hal. refusal_text hal.form 0 TooLong };

    fn refuse_long<K: Sink>(&self, alloc: Global, sink: &mut K) -> Status {
        refuse_log(alloc, self.form, 0, Cause::TooLong, sink)
    }

    fn answer_whole<K: Sink>(&self, alloc: Global, input: &[u8], sink: &mut K) -> Status {
        judge_text(alloc, input, self.form, self.strict, sink)
    }

    #[tactic(auto, using(crate::proofs::Telling::are_judged, crate::proofs::Telling::long_refused))]
    fn keeps_the_laws(&self) {}
}

/// Reads a hal log, judges it, strictly where that is asked for, and writes its report in the form.
pub fn hal_call<S: Source, K: Sink>(
    alloc: Global,
    source: &mut S,
    sink: &mut K,
    form: Form,
    strict: bool,
) -> Status
    // At status 0 the source was read to its end, its bytes are a hal log that breaks none of the rules, and its report
    // was written, and nothing else.
    ensures whole { OnDone (IsUnbroken form strict) (status_number result) (S.left source.old) (S.left source.new)
        (K.state sink.old) (K.state sink.new) }
    // Each status and each text has its cause in the input's meaning.
    ensures tells { Tells (Judges form strict) (S.left source.old) (status_number result) (K.state sink.old) (K.state sink.new) }
    ensures ends { KeepsEnds HAL_BYTES (status_number result) (S.faults source.old) (S.faults source.new) (S.left source.old)
        (S.left source.new) (K.state sink.old) (K.state sink.new) }
{
    answer_input(alloc, source, sink, HAL_BYTES, &Hal { form, strict })
}

/// The line that refuses a text.
fn refusal_text(alloc: Global, form: Form, line: u32, cause: Cause) -> Result<Vec<u8>, NoMemory>
    ensures { IfOk result (λ text. text.items ≡ refusal_text form line cause) }
{
    match form {
        Form::Person => hal_text::refused_for_person(alloc, line, cause),
        Form::Plain => hal_text::refused_text(alloc, line, cause),
    }
}

/// Refuses a text.
fn refuse_log<K: Sink>(alloc: Global, form: Form, line: u32, cause: Cause, sink: &mut K) -> Status
    ensures { AnswersWithMemory 1 (refusal_text form line cause) (status_number result) (K.state sink.old) (K.state sink.new) }
{
    answer_made(
        refusal_text(alloc, form, line, cause),
        Status::Refused,
        sink,
    )
}

/// Reads a hal log from its text, judges it and writes its report.
fn judge_text<K: Sink>(alloc: Global, text: &[u8], form: Form, strict: bool, sink: &mut K) -> Status
    ensures { TellsBy (JudgesLog form strict (log_of text.now)) (status_number result) (K.state sink.old) (K.state sink.new) }
{
    match read(alloc, text) {
        Err(LogRefused::NoMemory) => Status::NoMemory,
        Err(LogRefused::Bad { line, cause }) => refuse_log(alloc, form, line, cause, sink),
        Ok(log) => judge_log(alloc, &log, form, strict, sink),
    }
}

/// The report's text.
fn told_text(
    alloc: Global,
    form: Form,
    log: &HalLog,
    breaches: &[Breach],
    left: &[u32],
) -> Result<Vec<u8>, NoMemory>
    requires lines { IsTrue (list_all (has_line log.now.lines) breaches.now) }
    requires made { IsTrue (list_all is_well_made log.now.events) }
    ensures { IfOk result (λ text. text.items ≡ told_text form log.now breaches.now left.now) }
{
    match form {
        Form::Person => person_text(alloc, log, breaches, left),
        Form::Plain => plain_text(alloc, log.lines.as_slice(), breaches, left),
    }
}

/// Judges a hal log and writes its report. All memory is taken before the first write.
fn judge_log<K: Sink>(alloc: Global, log: &HalLog, form: Form, strict: bool, sink: &mut K) -> Status
    requires same { length log.now.lines ≡ length log.now.events }
    requires valid { IsTrue (is_valid log.now.parts log.now.events) }
    ensures { TellsBy (JudgesLog form strict (Result.Ok log.now)) (status_number result) (K.state sink.old) (K.state sink.new) }
{
    each_breach_has_its_line();
    let report = match report_of(alloc, log.parts, strict, &log.events) {
        Ok(report) => report,
        Err(_) => return Status::NoMemory,
    };
    let Report { breaches, left } = report;
    let breaches = breaches.as_slice();
    match told_text(alloc, form, log, breaches, left.as_slice()) {
        Ok(text) => answer(sink, text.as_slice(), status_of(breaches)),
        Err(_) => Status::NoMemory,
    }
}

/// The status of a report.
fn status_of(breaches: &[Breach]) -> Status
    ensures { status_number result ≡ report_status breaches.now }
{
    if breaches.is_empty() {
        Status::Done
    } else {
        Status::Refused
    }
}
