//! `run`: a script is read and run on workers, and its trace written.
ghost use Rattle.std.specs.Prelude.{◌≡◌, ◌≤◌, ◌<◌, ℕ, List, [], IfOk, IsTrue, length};
ghost use Rattle.cam_types.specs.Script.{is_valid};
ghost use Rattle.call_parts.specs.Answers.{AreAnswers, OnDone, Tells, TellsBy};
ghost use Rattle.call_parts.specs.Ends.{KeepsEnds};
ghost use Rattle.run_calls.specs.Finished.{FinishesAs};
ghost use Rattle.run_calls.specs.Running.{IsRunWhole, Runs, SaysOfRun};
ghost use Rattle.call_parts.specs.Lines.{refused_script_text};
ghost use Rattle.call_parts.specs.Texts.{named_profile};
ghost use Rattle.call_parts.specs.Status.{status_number};

use crate::finish::finish_run;
use call_parts::{Status, named_profile, refuse_script};
use cam_types::{NoMemory, SCRIPT_BYTES, Script};
use fill_jobs::Hands;
use io_edge::{ReadBytes, ReadFault, Sink, Source, read_all};
use picture_stages::DigestMemory;
use run_model::early_bound;
use service_parts::no_job_is_out_at_first;
use settle::{Service, close};
use shared_camera::{CamSeat, Gate, Shared};
use std::alloc::{AllocError, Global};
use std::marker::Model;
use std::sync::Wait;
use std::thread::Threads;
use std::time::Clock;
use text_parts::{Cause, TextRefused};
use trace_text::TraceWriter;

/// A run on workers that isn't begun, with all the memory that it and its printing need. A contract sees its script. It
/// can't be let go: `run_prepared` ends it.
pub struct PreparedRun {
    shared: Shared,
    root: CamSeat,
    digests: Vec<DigestMemory>,
    writer: TraceWriter,
}

impl Model for PreparedRun {
    ghost use Rattle.std.specs.Prelude.{◌≡◌, []};
    ghost use Rattle.cam_types.specs.declared.script.Script.{Script as AScript};
    ghost use Rattle.turn_lock.specs.Lending.{IsIdle};
    ghost use Rattle.turn_lock.specs.Seats.{fixed_of, view as view_of};
    ghost use Rattle.shared_camera.specs.Cameras.{script_of};
    ghost use Rattle.call_parts.specs.Lines.{refused_script_text};
    ghost use Rattle.call_parts.specs.Texts.{named_profile};

    ghost Value = { AScript };

    ghost view = { λ p. fixed_of script_of p.shared.turnstile };

    ghost invariant = { λ p. IsIdle script_of p.shared.turnstile p.root × ((view_of p.root).number ≡ 0)
        × ((view_of p.root).others ≡ []) × ((view_of p.root).seen ≡ [])
        × (p.writer ≡ named_profile (fixed_of script_of p.shared.turnstile)) };
}

/// Takes all the memory that the run of a script on so many workers and its printing need. There is a memory of digests
/// for each worker; it saves work alone, so no contract speaks of it.
pub fn prepare_run(alloc: Global, script: Script, workers: u32) -> Result<PreparedRun, NoMemory>
    requires { IsTrue (is_valid script) }
    ensures { IfOk result (λ prepared. prepared ≡ script) }
{
    let digests = digests_for(alloc, &script, workers)?;
    let writer = TraceWriter::new(alloc, named_profile(&script))?;
    let service = Service::open(alloc, script)?;
    no_job_is_out_at_first();
    match Shared::new(alloc, service) {
        Ok((shared, root)) => Ok(PreparedRun {
            shared,
            root,
            digests,
            writer,
        }),
        Err(service) => {
            close(service, Hands::new());
            Err(AllocError)
        }
    }
}

/// A memory of digests for each worker.
fn digests_for(alloc: Global, script: &Script, workers: u32) -> Result<Vec<DigestMemory>, NoMemory>
    requires { IsTrue (is_valid script.now) }
{
    // No run of the script fills more buffers than may come back early.
    let pictures = early_bound(script) as usize;
    let mut digests = Vec::with_capacity(alloc, workers as usize)?;
    for _ in 0..workers {
        digests.push(DigestMemory::with_room(alloc, pictures)?)?;
    }
    Ok(digests)
}

/// Runs a script on so many workers, and writes its trace. It takes no memory: the status is 0, or 4 where the sink
/// failed.
pub fn run_prepared<R: Threads + Wait + Clock + Sync, K: Sink, G: Gate + Sync>(
    rt: &R,
    prepared: PreparedRun,
    sink: &mut K,
    gate: &G,
    workers: u32,
) -> Status
    requires least { 1 ≤ workers }
    requires most { workers ≤ 8 }
    ensures { FinishesAs (named_profile prepared) prepared [] (status_number result) (K.state sink.old) (K.state sink.new) }
{
    let PreparedRun {
        shared,
        root,
        mut digests,
        mut writer,
    } = prepared;
    finish_run(
        rt,
        shared,
        root,
        workers,
        &mut digests,
        gate,
        &mut writer,
        sink,
    )
}

/// The statuses that belong to an input are those of an answer, and an input that is too long is refused.
#[tactic(auto, using(crate::proofs::Telling::are_run, call_parts::proofs::Meanings::long_script))]
fn inputs_are_answered()
    ensures answers { (input : List ℕ) → AreAnswers (Runs input) }
    ensures long { (input : List ℕ) → SCRIPT_BYTES < length input → Runs input 1 (refused_script_text 0 37) }
{}

/// Reads a script, runs it on so many workers and writes the trace. The script's picks choose nothing: each step is made
/// by the worker that comes to it first.
pub fn run_call<R: Threads + Wait + Clock + Sync, S: Source, K: Sink, G: Gate + Sync>(
    alloc: Global,
    rt: &R,
    source: &mut S,
    sink: &mut K,
    gate: &G,
    workers: u32,
) -> Status
    requires least { 1 ≤ workers }
    requires most { workers ≤ 8 }
    // The headline: at status 0 the source was read to its end, its bytes spell a script, and what was written is the
    // whole trace of a run of the script, which is complete and keeps the laws, and nothing else.
    ensures whole { OnDone IsRunWhole (status_number result) (S.left source.old) (S.left source.new) (K.state sink.old)
        (K.state sink.new) }
    // Each status and each text has its cause in the input's meaning. At status 4 a front of such a text is written.
    ensures tells { Tells Runs (S.left source.old) (status_number result) (K.state sink.old) (K.state sink.new) }
    ensures ends { KeepsEnds SCRIPT_BYTES (status_number result) (S.faults source.old) (S.faults source.new) (S.left source.old)
        (S.left source.new) (K.state sink.old) (K.state sink.new) }
{
    inputs_are_answered();
    match read_all(alloc, source, SCRIPT_BYTES) {
        Err(ReadFault::Failed) => Status::SourceFailed,
        Err(ReadFault::NoMemory) => Status::NoMemory,
        Ok(ReadBytes::TooLong) => refuse_script(alloc, 0, Cause::Limit.number(), sink),
        Ok(ReadBytes::Whole(bytes)) => run_text(alloc, rt, bytes.as_slice(), sink, gate, workers),
    }
}

/// Reads a script from its text, runs it and writes the trace.
fn run_text<R: Threads + Wait + Clock + Sync, K: Sink, G: Gate + Sync>(
    alloc: Global,
    rt: &R,
    input: &[u8],
    sink: &mut K,
    gate: &G,
    workers: u32,
) -> Status
    requires least { 1 ≤ workers }
    requires most { workers ≤ 8 }
    ensures { TellsBy (Runs input.now) (status_number result) (K.state sink.old) (K.state sink.new) }
{
    match script_text::read(alloc, input) {
        Err(TextRefused::NoMemory) => Status::NoMemory,
        Err(TextRefused::Bad { line, cause }) => refuse_script(alloc, line, cause.number(), sink),
        Ok(script) => run_script(alloc, rt, script, sink, gate, workers),
    }
}

/// Runs a script and writes the trace.
fn run_script<R: Threads + Wait + Clock + Sync, K: Sink, G: Gate + Sync>(
    alloc: Global,
    rt: &R,
    script: Script,
    sink: &mut K,
    gate: &G,
    workers: u32,
) -> Status
    requires valid { IsTrue (is_valid script) }
    requires least { 1 ≤ workers }
    requires most { workers ≤ 8 }
    ensures { TellsBy (SaysOfRun script) (status_number result) (K.state sink.old) (K.state sink.new) }
{
    match prepare_run(alloc, script, workers) {
        Ok(prepared) => run_prepared(rt, prepared, sink, gate, workers),
        Err(_) => Status::NoMemory,
    }
}
