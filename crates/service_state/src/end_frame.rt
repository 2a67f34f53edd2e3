//! The entry of a frame that may be its last.
ghost use Rattle.std.specs.Prelude.{◌≡◌, ◌&&◌, false};
ghost use Rattle.client_calls.specs.Around.{Fits};
ghost use Rattle.state_facts.specs.Clients.{clients_after};
ghost use Rattle.device_core.specs.View.{with_rows};
ghost use Rattle.device_rows.specs.Ready.{is_retire_ready};
ghost use Rattle.device_rows.specs.Rows.{row_at};
ghost use Rattle.service_parts.specs.After.{repeats_in};
ghost use Rattle.service_state.specs.Serving.{left};

use crate::state::ServiceState;
use cam_types::{FrameNo, Script};
use client_calls::{CaptureQueue, ClientCalls};
use device_core::Device;
use trace_model::Entry;

/// A frame that its next entry may end.
#[derive(Clone, Copy)]
pub(crate) struct Ending {
    frame: FrameNo,
    /// Whether the items of its request repeat. False where its row doesn't stand.
    repeats: bool,
}

impl Ending {
    /// The frame, before the device gives what the entry tells.
    pub(crate) fn of(device: &Device, captures: &CaptureQueue, frame: FrameNo) -> Ending
        ensures { result ≡ record {
          frame = frame;
          repeats = repeats_in captures.now.kinds (row_at frame.0 device.now.rows);
        } }
    {
        let repeats = match device.view(frame) {
            Some(row) => captures.repeats(row.request),
            None => false,
        };
        Ending { frame, repeats }
    }

    /// Notes the entry. The frame's row goes where it is done.
    pub(crate) fn note_entry(
        self,
        client: &mut ClientCalls,
        device: &mut Device,
        script: &Script,
        entry: &Entry,
    )
        requires { Fits (clients_after script.now false
            (self.repeats && is_retire_ready device.old.rows self.frame.0) entry.now client.old) }
        ensures client { client.new ≡
            clients_after script.now false (self.repeats && is_retire_ready device.old.rows self.frame.0) entry.now client.old }
        ensures device { device.new ≡ with_rows (left self.frame.0 device.old.rows) device.old }
    {
        let gone = device.retire(self.frame);
        client.note(script, false, self.repeats && gone, entry);
    }
}
