//! The parts of a service.
ghost use Rattle.std.specs.Prelude.{◌≡◌, ◌==◌, length};
ghost use Rattle.run_rows.specs.Kept.{is_no_row};
ghost use Rattle.trace_model.specs.Client.{is_empty};
ghost use Rattle.service_parts.specs.After.{is_over};

use buffer_manager::BufferManager;
use buffer_pool::{Fences, PendingSignals};
use cam_types::{Script, Settings};
use client_calls::{CaptureQueue, ClientCalls};
use device_core::Device;
use std::marker::Model;

/// The parts of a service: what its client has called, its queue, its buffers, its fences and its device. Each call
/// makes one step. It can't be let go: `scrap` ends it.
pub struct ServiceState {
    pub(crate) script: Script,
    pub(crate) client: ClientCalls,
    pub(crate) captures: CaptureQueue,
    pub(crate) buffers: BufferManager,
    pub(crate) fences: Fences,
    pub(crate) signals: PendingSignals,
    pub(crate) device: Device,
    /// The settings that were sent last, since the last configuration.
    pub(crate) last: Option<Settings>,
    /// The time of the next shutter, in nanoseconds.
    pub(crate) clock: u64,
}

impl Model for ServiceState {
    ghost use Rattle.service_state.specs.Serving.{IsKept, Serving, parts_of};

    ghost Value = { Serving };

    ghost view = { λ s. record {
      script = s.script;
      parts = parts_of s.client s.captures s.buffers s.fences s.device s.last s.clock;
    } };

    ghost invariant = { λ s. IsKept s.script s.client s.captures s.buffers s.fences s.signals s.device };
}

impl ServiceState {
    /// The script that is served.
    pub fn script(&self) -> &Script
        ensures { result.now ≡ self.now.script }
    {
        &self.script
    }

    /// Whether the run is over: every command is called, no frame is open, nothing waits, every buffer is in its pool
    /// and every fence is signalled.
    #[tactic(auto, using(crate::proofs::Signallers::none_stands))]
    pub fn is_over(&self) -> bool
        ensures { result ≡ is_over self.now.script self.now.parts }
    {
        self.client.is_all_called(&self.script)
            && ((is_quiet(&self.device) && is_empty(&self.captures))
                && (self.buffers.all_home() && is_none_pending(&self.signals)))
    }
}

/// Whether no frame is open.
pub(crate) fn is_quiet(device: &Device) -> bool
    ensures { result ≡ is_no_row device.now.rows }
{
    device.len() == 0
}

/// Whether nothing waits.
fn is_empty(captures: &CaptureQueue) -> bool
    ensures { result ≡ is_empty captures.now.turns.waiting }
{
    captures.waiting() == 0
}

/// Whether no fence has a signaller.
fn is_none_pending(signals: &PendingSignals) -> bool
    ensures { result ≡ (length signals.now.numbers == 0) }
{
    signals.len() == 0
}
