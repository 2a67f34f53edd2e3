//! Which steps of the open frames are ready.
ghost use Rattle.std.specs.Prelude.{◌≡◌, slice_get};
ghost use Rattle.std.specs.Option.{option_map};
ghost use Rattle.hal_device.specs.Ready.{ready_row, ready_target};

use crate::device::HalDevice;
use cam_types::{BufferId, Four, FrameNo, StreamIx, TargetView};

/// A target of an open frame: the framework's buffer, and which of its steps are ready.
#[derive(Clone, Copy)]
pub struct ReadyTarget {
    pub buffer: BufferId,
    pub may_fill: bool,
    /// Into memory of the picture's length.
    pub may_deliver: bool,
    pub may_return_failed: bool,
}

/// An open frame, and which of its steps are ready.
#[derive(Clone, Copy)]
pub struct ReadyRow {
    pub frame: FrameNo,
    /// Its exposure is the next one.
    pub may_expose: bool,
    pub may_send_part: bool,
    pub may_tell_error: bool,
    pub targets: Four<ReadyTarget>,
}

impl HalDevice {
    /// Which steps are ready of the frame at a place, from 0 on in order of frames. None exactly where so many frames
    /// aren't open.
    pub fn ready(&self, place: u32) -> Option<ReadyRow>
        ensures { result ≡ option_map (ready_row self.now) (slice_get self.now.device.rows place) }
    {
        let row = self.quiet.at(place)?;
        let frame = row.frame;
        Some(ReadyRow {
            frame,
            may_expose: self.quiet.is_next(frame),
            may_send_part: self.quiet.has_part(frame),
            may_tell_error: self.quiet.has_error(frame),
            targets: Four {
                a: self.ready_target(frame, StreamIx(0), row.targets.a),
                b: self.ready_target(frame, StreamIx(1), row.targets.b),
                c: self.ready_target(frame, StreamIx(2), row.targets.c),
                d: self.ready_target(frame, StreamIx(3), row.targets.d),
            },
        })
    }

    fn ready_target(
        &self,
        frame: FrameNo,
        stream: StreamIx,
        target: Option<TargetView>,
    ) -> Option<ReadyTarget>
        ensures { result ≡ option_map (ready_target self.now frame.0 stream.0) target }
    {
        let target = target?;
        Some(ReadyTarget {
            buffer: target.buffer,
            may_fill: self.quiet.may_fill(frame, stream),
            may_deliver: self.quiet.may_deliver(frame, stream),
            may_return_failed: self.quiet.may_return_failed(frame, stream),
        })
    }
}
