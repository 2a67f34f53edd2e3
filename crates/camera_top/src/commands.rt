//! What the words ask for.
ghost use Rattle.std.specs.Prelude.{◌≡◌, ◌≢◌, ◌≤◌, ℕ, true, false, is_some, IfSome, IsTrue, Option};
ghost use Rattle.std.specs.Io.KnownBytes.{IsAtEnd};
ghost use Rattle.io_edge.specs.States.{Writes};
ghost use Rattle.text_parts.specs.Forms.{form_of, is_in_range};
ghost use Rattle.play_calls.specs.Generated.{generated};
ghost use Rattle.call_parts.specs.Answers.{Answers};
ghost use Rattle.call_parts.specs.Ends.{CountsSink, CountsSource, ReadsBy};
ghost use Rattle.arbiter_call.specs.Arbitrates.{IsArbitrated};
ghost use Rattle.auto_call.specs.Auto.{IsCaptured};
ghost use Rattle.camera_top.specs.Commands.{TellsOf};
ghost use Rattle.play_calls.specs.Converting.{IsConverted};
ghost use Rattle.camera_top.specs.Help.{help_text, usage_line};
ghost use Rattle.play_calls.specs.Judging.{IsJudgedLegal};
ghost use Rattle.logical_call.specs.Logical.{IsLogicalWhole};
ghost use Rattle.reprocess_call.specs.Reprocess.{IsReprocessed};
ghost use Rattle.run_calls.specs.Running.{IsRunWhole};
ghost use Rattle.play_calls.specs.Says.{IsWhole, IsWholeRun};
ghost use Rattle.camera_top.specs.Does.{Does};
ghost use Rattle.camera_top.specs.Words.{limit_of, reads_alone};
ghost use Rattle.call_parts.specs.Status.{status_number};

use arbiter_call::arbiter_call;
use auto_call::auto_call;
use call_parts::{Status, answer};
use io_edge::{Sink, Source};
use logical_call::logical_call;
use play_calls::{Output, check_call, convert_call, gen_call, play_call};
use reprocess_call::reprocess_call;
use run_calls::{Gate, run_call};
use std::alloc::Global;
use std::sync::Wait;
use std::thread::Threads;
use std::time::Clock;
use text_parts::{Form, form_of};

/// The line of words that are no form.
const USAGE_LINE: &[u8] =
    b"usage: camera play | run --workers N | check | gen SEED COUNT | convert | arbiter | auto | logical | reprocess | help\n";

/// What `help` writes: what the program does, and the usage line.
const HELP_TEXT: &[u8] =
    b"camera: plays, runs and judges HAL3 camera scripts\nusage: camera play | run --workers N | check | gen SEED COUNT | convert | arbiter | auto | logical | reprocess | help\n";

/// Does what the words ask for.
pub fn camera_main<R: Threads + Wait + Clock + Sync, S: Source, K: Sink, G: Gate + Sync>(
    alloc: Global,
    rt: &R,
    words: &[&str],
    source: &mut S,
    sink: &mut K,
    gate: &G,
) -> Status
    // The status and the text are those that belong to the form that the words have, and to the input's meaning.
    ensures tells { TellsOf (form_of words.now) (S.left source.old) (status_number result) (K.state sink.old)
        (K.state sink.new) }
    ensures usage_only { status_number result ≡ 2 → form_of words.now ≡ Option.None }

    // Status 0: the help text; or the source was read to its end, and the whole trace of the script's played run was
    // written, which is complete; or that of a run of the script on workers, which is complete and keeps the laws; or
    // the summary of the played run of the generated script; or the trace that was read is a
    // complete legal run of the script that was read; or the trace that was read was written as one of version 2; or
    // the log of what clients ask, with their sessions; or the frames of the scenes that were read, with their trace;
    // or the joint run of two cameras of the script that was read; or the complete run of the plan that was read.
    ensures help_done { form_of words.now ≡ Option.Some Form.Help → status_number result ≡ 0
        → Writes (K.state sink.old) (K.state sink.new) help_text }
    ensures play_done { form_of words.now ≡ Option.Some Form.Play → status_number result ≡ 0 → IsAtEnd (S.left source.new)
        × IfSome (S.left source.old) (λ input. IsWhole input (K.state sink.old) (K.state sink.new)) }
    ensures run_done { (workers : ℕ) → form_of words.now ≡ Option.Some (Form.Run workers) → status_number result ≡ 0
        → IsAtEnd (S.left source.new)
        × IfSome (S.left source.old) (λ input. IsRunWhole input (K.state sink.old) (K.state sink.new)) }
    ensures gen_done { (seed count : ℕ) → form_of words.now ≡ Option.Some (Form.Gen seed count) → status_number result ≡ 0
        → IsWholeRun Output.Summary (generated seed count) (K.state sink.old) (K.state sink.new) }
    ensures check_done { form_of words.now ≡ Option.Some Form.Check → status_number result ≡ 0 → IsAtEnd (S.left source.new)
        × IfSome (S.left source.old) (λ input. IsJudgedLegal input (K.state sink.old) (K.state sink.new)) }
    ensures convert_done { form_of words.now ≡ Option.Some Form.Convert → status_number result ≡ 0
        → IsAtEnd (S.left source.new)
        × IfSome (S.left source.old) (λ input. IsConverted input (K.state sink.old) (K.state sink.new)) }
    ensures arbiter_done { form_of words.now ≡ Option.Some Form.Arbiter → status_number result ≡ 0
        → IsAtEnd (S.left source.new)
        × IfSome (S.left source.old) (λ input. IsArbitrated input (K.state sink.old) (K.state sink.new)) }
    ensures auto_done { form_of words.now ≡ Option.Some Form.Auto → status_number result ≡ 0 → IsAtEnd (S.left source.new)
        × IfSome (S.left source.old) (λ input. IsCaptured input (K.state sink.old) (K.state sink.new)) }
    ensures logical_done { form_of words.now ≡ Option.Some Form.Logical → status_number result ≡ 0
        → IsAtEnd (S.left source.new)
        × IfSome (S.left source.old) (λ input. IsLogicalWhole input (K.state sink.old) (K.state sink.new)) }
    ensures reprocess_done { form_of words.now ≡ Option.Some Form.Reprocess → status_number result ≡ 0
        → IsAtEnd (S.left source.new)
        × IfSome (S.left source.old) (λ input. IsReprocessed input (K.state sink.old) (K.state sink.new)) }
    ensures done_form { status_number result ≡ 0 → is_some (form_of words.now) ≡ true }

    // Other forms, and words of no form, leave the source as it is, and end with 0, 2, 4 or 5.
    ensures unread { is_some (limit_of (form_of words.now)) ≡ false → (S.left source.new ≡ S.left source.old)
        × (S.faults source.new ≡ S.faults source.old) × (status_number result ≢ 1) × (status_number result ≢ 3) }
    // The source's count of faults rose at 3 alone, and the sink's at 4 alone; at 3 and 5 nothing was written. At 0 a form
    // that reads has read the source to its end; where it has another answer, too, or there is more than the limit.
    ensures source { CountsSource (status_number result) (S.faults source.old) (S.faults source.new) }
    ensures sink { CountsSink (status_number result) (K.state sink.old) (K.state sink.new) }
    ensures read { IfSome (limit_of (form_of words.now)) (λ limit. ReadsBy limit (status_number result) (S.left source.old)
        (S.left source.new)) }
    ensures known { status_number result ≤ 5 }
{
    match form_of(words) {
        Some(form) => answer_form(alloc, rt, form, source, sink, gate),
        None => usage(sink),
    }
}

/// Does what a form asks for.
fn answer_form<R: Threads + Wait + Clock + Sync, S: Source, K: Sink, G: Gate + Sync>(
    alloc: Global,
    rt: &R,
    form: Form,
    source: &mut S,
    sink: &mut K,
    gate: &G,
) -> Status
    requires { IsTrue (is_in_range form) }
    ensures { Does (Option.Some form) (status_number result) (S.left source.old) (S.left source.new)
        (S.faults source.old) (S.faults source.new) (K.state sink.old) (K.state sink.new) }
{
    match form {
        Form::Run { workers } => run_call(alloc, rt, source, sink, gate, workers),
        Form::Gen { seed, count } => gen_call(alloc, seed, count, sink),
        Form::Help => help_call(sink),
        _ => answer_alone(alloc, form, source, sink),
    }
}

/// Does what a form asks for that reads the source, and does the rest on this thread.
fn answer_alone<S: Source, K: Sink>(
    alloc: Global,
    form: Form,
    source: &mut S,
    sink: &mut K,
) -> Status
    requires { IsTrue (reads_alone form) }
    ensures { Does (Option.Some form) (status_number result) (S.left source.old) (S.left source.new)
        (S.faults source.old) (S.faults source.new) (K.state sink.old) (K.state sink.new) }
{
    match form {
        Form::Play => play_call(alloc, source, sink),
        Form::Check => check_call(alloc, source, sink),
        Form::Convert => convert_call(alloc, source, sink),
        Form::Arbiter => arbiter_call(alloc, source, sink),
        Form::Auto => auto_call(alloc, source, sink),
        Form::Logical => logical_call(alloc, source, sink),
        Form::Reprocess => reprocess_call(alloc, source, sink),
        Form::Run { .. } | Form::Gen { .. } | Form::Help => unreachable!(),
    }
}

/// Writes the usage line.
fn usage<K: Sink>(sink: &mut K) -> Status
    ensures { Answers 2 usage_line (status_number result) (K.state sink.old) (K.state sink.new) }
{
    answer(sink, USAGE_LINE, Status::Usage)
}

/// Writes what the program does, and the usage line. It takes no memory.
pub fn help_call<K: Sink>(sink: &mut K) -> Status
    ensures { Answers 0 help_text (status_number result) (K.state sink.old) (K.state sink.new) }
{
    answer(sink, HELP_TEXT, Status::Done)
}
