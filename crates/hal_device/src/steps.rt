//! The steps of frames that go well: exposures, metadata, pictures.
ghost use Rattle.std.specs.Prelude.{◌≡◌, IfSome, IsNone, is_some, length, slice_get};
ghost use Rattle.std.specs.Option.{option_map};
ghost use Rattle.hal_device_model.specs.Calls.{exposure_in, has_length, may_deliver, may_fill, part_in};
ghost use Rattle.hal_device_model.specs.State.{streams_in};
ghost use Rattle.hal_device_model.specs.Log.{Deliver, Expose, Fill, SendPart, after_call};
ghost use Rattle.hal_device.specs.Kept.{IsDelivered, place_at};

use crate::device::HalDevice;
use crate::shelves::picture_length;
use cam_types::{BufferId, FrameNo, PartialResult, StreamIx};
use request_checks::{Plan, PlanStream};

/// A good buffer that comes back: its number, and the SHA-256 of its picture.
#[derive(Clone, Copy)]
pub struct Delivered {
    pub buffer: BufferId,
    pub digest: [u8; 32],
}

impl HalDevice {
    /// Begins the next exposure at this time, in nanoseconds, and exposes the frame, whose shutter is to be notified.
    /// None exactly where no frame waits for its exposure, it was stopped, or the device shall fail at it.
    pub fn expose(&mut self, time: u64) -> Option<FrameNo>
        ensures frame { result ≡ option_map (λ row. row.frame) (exposure_in self.old) }
        ensures state { self.new ≡ after_call (Expose time) self.old }
    {
        self.quiet.expose(time)
    }

    /// The next partial result of a frame, with its number from 1 to 3. None exactly where the frame isn't exposed,
    /// its metadata has ended, it fails whole or will, or the result is the last and it shall lack it or that of an
    /// earlier frame hasn't come.
    pub fn send_part(&mut self, frame: FrameNo) -> Option<(u8, PartialResult)>
        ensures part { result ≡ part_in frame.0 self.old }
        ensures state { self.new ≡ after_call (SendPart frame.0) self.old }
    {
        self.quiet.part(frame)
    }

    /// Draws the picture of a target, whose acquire fence was waited for. False exactly where the frame isn't exposed,
    /// the picture is drawn, or it or the frame failed or will.
    pub fn fill(&mut self, frame: FrameNo, stream: StreamIx) -> bool
        ensures ready { result ≡ may_fill frame.0 stream.0 self.old }
        ensures state { self.new ≡ after_call (Fill frame.0 stream) self.old }
    {
        self.quiet.fill(frame, stream)
    }

    /// Writes the picture of a target to the framework's buffer, which comes back. None exactly where it isn't drawn,
    /// it or its frame failed or will, an earlier frame holds the stream back, or the memory hasn't the picture's
    /// length.
    pub fn deliver(
        &mut self,
        frame: FrameNo,
        stream: StreamIx,
        memory: &mut [u8],
    ) -> Option<Delivered>
        ensures ready { is_some result ≡ may_deliver frame.0 stream.0 (length memory.old) self.old }
        ensures picture { IfSome result (λ done. IsDelivered frame.0 stream.0 self.old memory.new done) }
        ensures state { self.new ≡ after_call (Deliver frame.0 stream (length memory.old)) self.old }
        ensures memory { IsNone result → memory.new ≡ memory.old }
    {
        if !self.has_length(stream, memory) {
            return None;
        }
        let (pixels, digest) = self.quiet.deliver(frame, stream)?;
        memory.copy_from_slice(pixels.bytes());
        let buffer = pixels.id();
        self.shelves.take_back(stream, pixels.into_block());
        Some(Delivered { buffer, digest })
    }

    /// Whether the memory has the length of a picture of the stream.
    fn has_length(&self, stream: StreamIx, memory: &[u8]) -> bool
        ensures { result ≡ has_length (length memory.now) (slice_get (streams_in self.now) stream.0) }
    {
        match stream_at(self.plan, stream) {
            Some(planned) => picture_length(planned.spec) as usize == memory.len(),
            None => false,
        }
    }
}

/// The stream at a place of the plan.
fn stream_at(plan: Plan, stream: StreamIx) -> Option<PlanStream>
    ensures { result ≡ place_at stream.0 plan }
{
    match stream.0 {
        0 => plan.streams.a,
        1 => plan.streams.b,
        2 => plan.streams.c,
        3 => plan.streams.d,
        _ => None,
    }
}
