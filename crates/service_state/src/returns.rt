//! Buffers come back from the device: filled, early, or in error.
ghost use Rattle.std.specs.Prelude.{◌≡◌, [], None, IsTrue, slice_get};
ghost use Rattle.buffer_manager.specs.Managed.{IsBufferAt, IsOf, fence_from, homes_with, moved};
ghost use Rattle.run_model.specs.declared.step.StepName.TheVariants.{Deliver, Early, Finish, ReturnFailed};
ghost use Rattle.service_state.specs.Answers.{Answers};
ghost use Rattle.service_state.specs.Serving.{IsServing};
ghost use Rattle.state_facts.specs.Homes.{place_in};
ghost use Rattle.trace_model.specs.Place.{Device, Pool, is_at};

use crate::end_frame::Ending;
use crate::state::ServiceState;
use buffer_manager::BufferManager;
use buffer_pool::{Parked, Waiter};
use cam_types::{BufferId, FenceNo, FrameNo, StreamIx};
use trace_model::Entry;

impl ServiceState {
    /// Gives a filled buffer to the client, with its picture's digest. None exactly where it isn't filled, it or its
    /// frame fails, or an earlier frame holds the stream back.
    pub fn deliver(&mut self, frame: FrameNo, stream: StreamIx) -> Option<Entry>
        requires { IsServing self.old }
        ensures { Answers (Deliver frame stream) self.old result self.new }
    {
        let ending = Ending::of(&self.device, &self.captures, frame);
        let (pixels, digest) = self.device.deliver(frame, stream)?;
        let buffer = pixels.id();
        self.buffers.deliver(stream, pixels);
        let entry = Entry::Filled {
            frame,
            stream,
            buffer,
            fence: None,
            digest,
        };
        ending.note_entry(&mut self.client, &mut self.device, &self.script, &entry);
        Some(entry)
    }

    /// Lets a buffer go to the client while a stage fills it, with the next device fence. None exactly where the
    /// script has no early returns, no stage fills it, it is back, it or its frame fails, or an earlier frame holds the
    /// stream back.
    pub fn early(&mut self, frame: FrameNo, stream: StreamIx) -> Option<Entry>
        requires { IsServing self.old }
        ensures { Answers (Early frame stream) self.old result self.new }
    {
        if !self.script.early {
            return None;
        }
        let buffer = self.device.early(frame, stream)?;
        let fence = self.buffers.deliver_early(stream, buffer);
        Some(Entry::Early {
            frame,
            stream,
            buffer,
            fence,
        })
    }

    /// Signals the device fence of a buffer that came back early: its picture is there. None exactly where it didn't
    /// come back early, or isn't filled.
    pub fn finish(&mut self, frame: FrameNo, stream: StreamIx) -> Option<Entry>
        requires { IsServing self.old }
        ensures { Answers (Finish frame stream) self.old result self.new }
    {
        let ending = Ending::of(&self.device, &self.captures, frame);
        let (pixels, digest) = self.device.finish(frame, stream)?;
        let fence = self.buffers.finish(stream, pixels);
        let entry = Entry::Late { fence, digest };
        ending.note_entry(&mut self.client, &mut self.device, &self.script, &entry);
        Some(entry)
    }

    /// Takes a buffer back in error, with its acquire fence where nobody waited for that. None exactly where its error
    /// isn't announced, or the sensor or a stage has it.
    pub fn return_failed(&mut self, frame: FrameNo, stream: StreamIx) -> Option<Entry>
        requires { IsServing self.old }
        ensures { Answers (ReturnFailed frame stream) self.old result self.new }
    {
        let ending = Ending::of(&self.device, &self.captures, frame);
        let parked = self.device.return_failed(frame, stream, &mut self.fences)?;
        let (buffer, fence) = give_back(&mut self.buffers, stream, parked);
        let entry = Entry::Failed {
            frame,
            stream,
            buffer,
            fence,
        };
        ending.note_entry(&mut self.client, &mut self.device, &self.script, &entry);
        Some(entry)
    }
}

/// Gives a buffer that failed back to its pool. The answer is the buffer, and the fence of its waiter.
fn give_back(
    buffers: &mut BufferManager,
    stream: StreamIx,
    parked: Parked,
) -> (BufferId, Option<FenceNo>)
    requires own { IsOf buffers.old stream.0 parked.pixels.id.0 }
    requires whole { IsBufferAt (slice_get buffers.old.specs stream.0) parked.pixels }
    requires device { IsTrue (is_at (place_in (homes_with [] buffers.old) parked.pixels.id.0) Device) }
    ensures back { buffers.new ≡ moved parked.pixels.id.0 Pool (fence_from parked.waiter) None None buffers.old }
    ensures buffer { result.0 ≡ parked.pixels.id }
    ensures fence { result.1 ≡ fence_from parked.waiter }
{
    let buffer = parked.pixels.id();
    let fence = fence_of(&parked.waiter);
    buffers.give_back(stream, parked);
    (buffer, fence)
}

/// The fence of a waiter.
fn fence_of(waiter: &Option<Waiter>) -> Option<FenceNo>
    ensures { result ≡ fence_from waiter.now }
{
    match waiter {
        Some(waiter) => Some(FenceNo(waiter.number())),
        None => None,
    }
}
