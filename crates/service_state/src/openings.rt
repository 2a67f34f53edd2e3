//! The parts are opened with all their memory, and ended.
ghost use Rattle.std.specs.Prelude.{◌≡◌, [], ◌<◌, ◌^◌, length, not, IfOk, IsTrue};
ghost use Rattle.std.specs.List.{list_all};
ghost use Rattle.buffer_manager.specs.Managed.{no_buffers};
ghost use Rattle.buffer_pool.specs.Fences.{no_fences};
ghost use Rattle.buffer_pool.specs.Pending.{no_pending};
ghost use Rattle.cam_types.specs.Script.{is_valid};
ghost use Rattle.client_calls.specs.Captures.{no_captures};
ghost use Rattle.device_rows.specs.Jobs.{has_job_out};
ghost use Rattle.device_core.specs.Stored.{no_plan};
ghost use Rattle.service_state.specs.Serving.{IsServing, opened};
ghost use Rattle.trace_laws.specs.Bounds.{early_bound, fence_bound};

use crate::state::ServiceState;
use buffer_manager::BufferManager;
use buffer_pool::{Fences, PendingSignals};
use cam_types::{FIRST_SHUTTER, Fault, FaultList, NoMemory, Script};
use client_calls::{CaptureQueue, ClientCalls};
use device_core::Device;
use run_model::{early_bound, fence_bound};
use std::alloc::Global;

impl ServiceState {
    /// The parts before the first step, with all the memory that a run of the script can need.
    pub fn open(alloc: Global, script: Script) -> Result<ServiceState, NoMemory>
        requires { IsTrue (is_valid script) }
        ensures { IfOk result (λ s. s ≡ opened script) }
    {
        let (device, buffers) = open_device(alloc, &script)?;
        match open_queues(alloc, &script) {
            Ok((captures, fences, signals)) => Ok(ServiceState {
                script,
                client: ClientCalls::new(),
                captures,
                buffers,
                fences,
                signals,
                device,
                last: None,
                clock: FIRST_SHUTTER,
            }),
            Err(error) => {
                let mut fences = Fences::new(alloc);
                device.scrap(&mut fences);
                buffers.scrap(&mut fences);
                Err(error)
            }
        }
    }

    /// Ends the parts, and spends all that they hold. No job is out.
    pub fn scrap(self)
        requires serving { IsServing self }
        requires home { IsTrue (list_all (λ row. not (has_job_out row)) self.parts.rows) }
    {
        let ServiceState {
            script: _,
            client: _,
            captures: _,
            buffers,
            mut fences,
            signals,
            device,
            last: _,
            clock: _,
        } = self;
        device.scrap(&mut fences);
        buffers.scrap(&mut fences);
        signals.scrap(&mut fences);
    }
}

/// The device, which is to have the script's faults, and the buffers.
fn open_device(alloc: Global, script: &Script) -> Result<(Device, BufferManager), NoMemory>
    requires { IsTrue (is_valid script.now) }
    ensures device { IfOk result (λ both. both.0 ≡ record {
      plan = no_plan;
      faults = script.now.faults;
      capacity = script.now.profile.depth;
      rows = [];
    }) }
    ensures buffers { IfOk result (λ both. both.1 ≡ no_buffers script.now.profile (early_bound script.now)) }
{
    let faults = copied(alloc, script.faults.as_slice())?;
    let device = Device::new(alloc, u32::from(script.profile.depth), faults)?;
    match BufferManager::open(alloc, script.profile, early_bound(script)) {
        Ok(buffers) => Ok((device, buffers)),
        Err(error) => {
            device.scrap(&mut Fences::new(alloc));
            Err(error)
        }
    }
}

/// What waits at first: no capture and no fence.
fn open_queues(
    alloc: Global,
    script: &Script,
) -> Result<(CaptureQueue, Fences, PendingSignals), NoMemory>
    requires { IsTrue (is_valid script.now) }
    ensures captures { IfOk result (λ all. all.0 ≡ no_captures (length script.now.commands)) }
    ensures fences { IfOk result (λ all. all.1 ≡ no_fences (fence_bound script.now)) }
    ensures signals { IfOk result (λ all. all.2 ≡ no_pending (fence_bound script.now)) }
{
    let captures = CaptureQueue::new(alloc, script.commands.len())?;
    let fences = Fences::with_room(alloc, fence_bound(script))?;
    let signals = PendingSignals::with_room(alloc, fence_bound(script))?;
    Ok((captures, fences, signals))
}

/// A copy of the faults.
fn copied(alloc: Global, faults: &[Fault]) -> Result<FaultList, NoMemory>
    requires { length faults.now < 2 ^ 32 }
    ensures { IfOk result (λ copy. copy ≡ faults.now) }
{
    let mut copy = FaultList::new(alloc);
    for fault in faults {
        copy.push(*fault)?;
    }
    Ok(copy)
}
