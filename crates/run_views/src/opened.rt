//! A run with all its memory taken, and how it is told whole.
ghost use Rattle.std.specs.Prelude.{◌≡◌, [], IfOk, IsTrue, false};
ghost use Rattle.cam_types.specs.Script.{is_valid};
ghost use Rattle.run_views.specs.Says.{ListsRun};
ghost use Rattle.call_parts.specs.Status.{status_number};

use crate::playing::tell_moves;
use crate::teller::Teller;
use call_parts::Status;
use cam_types::{NoMemory, Script};
use fill_jobs::Hands;
use io_edge::Sink;
use picture_stages::DigestMemory;
use run_model::early_bound;
use service_core::Service;
use service_parts::no_job_is_out_at_first;
use settle::close;
use std::alloc::Global;
use std::marker::Model;
use trace_text::Printer;

/// The memory that a run's pictures and its text need.
#[derive(Drop)]
struct Memory {
    digests: DigestMemory,
    printer: Printer,
    teller: Teller,
}

impl Memory {
    /// Takes the memory for the run of a script.
    fn new(alloc: Global, script: &Script) -> Result<Memory, NoMemory>
        requires { IsTrue (is_valid script.now) }
        ensures { IfOk result (λ memory. memory.teller ≡ record { pieces = []; broken = false }) }
    {
        // No run of the script fills more buffers than may come back early.
        let digests = DigestMemory::with_room(alloc, early_bound(script) as usize)?;
        let printer = Printer::new(alloc, None)?;
        let teller = Teller::new(alloc)?;
        Ok(Memory {
            digests,
            printer,
            teller,
        })
    }
}

/// A run that isn't begun, with all the memory that it and its text need. A contract sees its script. It can't be let
/// go: `tell` ends it.
pub(crate) struct Opened {
    service: Service,
    memory: Memory,
}

impl Model for Opened {
    ghost use Rattle.std.specs.Prelude.{◌≡◌, [], false};
    ghost use Rattle.cam_types.specs.declared.script.Script.{Script as AScript};

    ghost Value = { AScript };

    ghost view = { λ o. o.service.script };

    ghost invariant = { λ o. (o.service.history ≡ [])
        × (o.memory.teller ≡ record { pieces = []; broken = false }) };
}

impl Opened {
    /// Takes all the memory that the run of a script and its text need.
    pub(crate) fn new(alloc: Global, script: Script) -> Result<Opened, NoMemory>
        requires { IsTrue (is_valid script) }
        ensures { IfOk result (λ opened. opened ≡ script) }
    {
        let memory = Memory::new(alloc, &script)?;
        let service = Service::open(alloc, script)?;
        Ok(Opened { service, memory })
    }

    /// Plays the run and tells it. It takes no memory: the status is 0, or 4 where the sink failed.
    pub(crate) fn tell<K: Sink>(self, sink: &mut K) -> Status
        ensures { ListsRun self (status_number result) (K.state sink.old) (K.state sink.new) }
    {
        let Opened { service, memory } = self;
        tell_run(service, memory, sink)
    }
}

/// Plays a run from its first move on, and tells it whole.
fn tell_run<K: Sink>(mut service: Service, memory: Memory, sink: &mut K) -> Status
    requires service { service.history ≡ [] }
    requires teller { memory.teller ≡ record { pieces = []; broken = false } }
    ensures { ListsRun service.script (status_number result) (K.state sink.old) (K.state sink.new) }
{
    no_job_is_out_at_first();
    let Memory {
        digests,
        mut printer,
        mut teller,
    } = memory;
    let mut hands = Hands::with_memory(digests);
    teller.put(b"candidates 1\n", sink);
    tell_moves(&mut service, &mut hands, &mut printer, &mut teller, sink);
    teller.put(b"end\n", sink);
    let status = teller.finish(sink);
    close(service, hands);
    status
}
