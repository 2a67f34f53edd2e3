//! Ending a run that is shared.
ghost use Rattle.std.specs.Prelude.{◌≡◌, ◌≤◌, [], reverse};
ghost use Rattle.service_parts.specs.Outs.{AreOut};
ghost use Rattle.turn_lock.specs.Lending.{IsIdle};
ghost use Rattle.turn_lock.specs.Seats.{fixed_of, view};
ghost use Rattle.shared_camera.specs.Cameras.{script_of};
ghost use Rattle.run_calls.specs.Finished.{FinishesAs};
ghost use Rattle.call_parts.specs.Answers.{Answers};
ghost use Rattle.call_parts.specs.Status.{status_number};
ghost use Rattle.run_model.specs.History.{trace_of};
ghost use Rattle.trace_text.specs.Spelling.{spelling};

use call_parts::{Status, write_trace};
use fill_jobs::Hands;
use io_edge::Sink;
use picture_stages::DigestMemory;
use run_model::a_complete_run_keeps_the_laws;
use settle::{Service, close, settle};
use shared_camera::{CamSeat, Gate, Shared, no_job_is_out_of_an_idle_root, run_workers};
use std::sync::Wait;
use std::thread::Threads;
use std::time::Clock;
use trace_text::TraceWriter;

/// Runs the workers, ends the sharing, makes the steps that are left on this thread, and writes the trace. It takes no
/// memory: the status is 0, or 4 where the sink failed.
pub fn finish_run<R: Threads + Wait + Clock + Sync, K: Sink, G: Gate + Sync>(
    rt: &R,
    shared: Shared,
    mut root: CamSeat,
    workers: u32,
    digests: &mut [DigestMemory],
    gate: &G,
    writer: &mut TraceWriter,
    sink: &mut K,
) -> Status
    requires idle { IsIdle script_of shared.turnstile root }
    requires root { (view root).number ≡ 0 }
    requires alone { (view root).others ≡ [] }
    requires least { 1 ≤ workers }
    requires most { workers ≤ 8 }
    // What is written is the whole trace of a run of the script that begins with what the root had seen, is complete
    // and keeps the laws; or at status 4 a front of it.
    ensures { FinishesAs writer.old (fixed_of script_of shared.turnstile) (view root).seen (status_number result)
        (K.state sink.old) (K.state sink.new) }
{
    run_workers(rt, &shared, &mut root, workers, digests, gate);
    let service = shared.close(root);
    no_job_is_out_of_an_idle_root();
    service.is_a_run();
    settle_and_write(service, writer, sink)
}

/// Ends a camera that is shared and of which nothing more is wanted: no step is made, and what was seen is the history
/// that it ends with.
pub fn scrap_shared(shared: Shared, root: CamSeat)
    requires idle { IsIdle script_of shared.turnstile root }
    requires root { (view root).number ≡ 0 }
    requires alone { (view root).others ≡ [] }
{
    let service = shared.close(root);
    no_job_is_out_of_an_idle_root();
    service.is_a_run();
    close(service, Hands::new());
}

/// Writes the trace of a service. It takes no memory.
fn write_trace_of<K: Sink>(writer: &mut TraceWriter, service: &Service, sink: &mut K) -> Status
    ensures { Answers 0 (spelling writer.old (reverse (trace_of service.now.history))) (status_number result)
        (K.state sink.old) (K.state sink.new) }
{
    service.is_a_run();
    write_trace(writer, service.trace(), sink)
}

/// Makes the steps that are left of a service of which no job is out, and writes its trace.
fn settle_and_write<K: Sink>(mut service: Service, writer: &mut TraceWriter, sink: &mut K) -> Status
    requires { AreOut service.script service.history [] }
    ensures { FinishesAs writer.old service.script (reverse service.history) (status_number result)
        (K.state sink.old) (K.state sink.new) }
{
    a_complete_run_keeps_the_laws();
    let mut hands = Hands::new();
    settle(&mut service, &mut hands);
    service.is_a_run();
    let status = write_trace_of(writer, &service, sink);
    close(service, hands);
    status
}
