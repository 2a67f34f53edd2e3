//! A run with all its memory taken: the script is opened, and room for printing is there, before the first move.
ghost use Rattle.std.specs.Prelude.{◌≡◌, ◌++◌, IfOk, IsTrue};
ghost use Rattle.cam_types.specs.Script.{is_valid};
ghost use Rattle.io_edge.specs.States.{Writes};
ghost use Rattle.call_parts.specs.Answers.{Answers};
ghost use Rattle.play_calls.specs.Says.{PlaysAs, PlaysBehind};
ghost use Rattle.call_parts.specs.Texts.{named_profile, text_in};
ghost use Rattle.call_parts.specs.Status.{status_number};

use call_parts::{Output, Status, named_profile, write_run};
use cam_types::{NoMemory, Script};
use fill_jobs::Hands;
use io_edge::Sink;
use picture_stages::DigestMemory;
use run_model::early_bound;
use service_parts::no_job_is_out_at_first;
use settle::{Service, close, play};
use std::alloc::Global;
use std::marker::Model;
use trace_text::TraceWriter;

/// A run that isn't begun, with all the memory that it and its printing need. A contract sees its script. It can't be
/// let go: `play_prepared` or `scrap` ends it.
pub struct Prepared {
    service: Service,
    hands: Hands,
    writer: TraceWriter,
}

impl Model for Prepared {
    ghost use Rattle.std.specs.Prelude.{◌≡◌, []};
    ghost use Rattle.cam_types.specs.declared.script.Script.{Script as AScript};
    ghost use Rattle.call_parts.specs.Texts.{named_profile};

    ghost Value = { AScript };

    ghost view = { λ p. p.service.script };

    ghost invariant = { λ p. (p.service.history ≡ []) × (p.hands ≡ []) × (p.writer ≡ named_profile p.service.script) };
}

impl Prepared {
    /// Ends a run that was never begun.
    pub fn scrap(self) {
        let Prepared {
            service,
            hands,
            writer: _,
        } = self;
        no_job_is_out_at_first();
        close(service, hands);
    }
}

/// Takes all the memory that the run of a script and its printing need.
pub fn prepare(alloc: Global, script: Script) -> Result<Prepared, NoMemory>
    requires { IsTrue (is_valid script) }
    ensures { IfOk result (λ prepared. prepared ≡ script) }
{
    // No run of the script fills more buffers than may come back early.
    let digests = DigestMemory::with_room(alloc, early_bound(&script) as usize)?;
    let writer = TraceWriter::new(alloc, named_profile(&script))?;
    let service = Service::open(alloc, script)?;
    Ok(Prepared {
        service,
        hands: Hands::with_memory(digests),
        writer,
    })
}

/// Plays the run, and writes its trace or its summary. It takes no memory: the status is 0, or 4 where the sink failed.
pub fn play_prepared<K: Sink>(prepared: Prepared, output: Output, sink: &mut K) -> Status
    ensures { PlaysAs output prepared (status_number result) (K.state sink.old) (K.state sink.new) }
{
    play_behind(prepared, &[], output, sink)
}

/// Plays the run, and writes a front and behind it the run's trace or its summary. It takes no memory: the status is 0,
/// or 4 where the sink failed.
pub fn play_behind<K: Sink>(
    prepared: Prepared,
    front: &[u8],
    output: Output,
    sink: &mut K,
) -> Status
    ensures { PlaysBehind front.now output prepared (status_number result) (K.state sink.old) (K.state sink.new) }
{
    no_job_is_out_at_first();
    let Prepared {
        mut service,
        mut hands,
        mut writer,
    } = prepared;
    play(&mut service, &mut hands);
    let status = write_behind(front, &mut writer, &service, output, sink);
    close(service, hands);
    status
}

/// Writes a front, and behind it the trace of a service, or its summary.
fn write_behind<K: Sink>(
    front: &[u8],
    writer: &mut TraceWriter,
    service: &Service,
    output: Output,
    sink: &mut K,
) -> Status
    requires { writer.old ≡ named_profile service.now.script }
    ensures { Answers 0 (front.now ++ text_in output service.now.script service.now.history) (status_number result)
        (K.state sink.old) (K.state sink.new) }
{
    service.is_a_run();
    match writer.write_front(front, sink) {
        Ok(()) => write_run(writer, service.trace(), output, sink),
        Err(_) => Status::SinkFailed,
    }
}
