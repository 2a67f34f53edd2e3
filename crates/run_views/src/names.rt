//! How a step is named among candidates.
ghost use Rattle.std.specs.Prelude.{◌++◌, codes, decimal};
ghost use Rattle.run_views.specs.Names.{step_text, target_text};
ghost use Rattle.run_views.specs.Told.{TellsMore};

use crate::teller::Teller;
use cam_types::{FrameNo, StreamIx};
use io_edge::Sink;
use run_model::StepName;

/// Tells the name of a step.
pub(crate) fn put_step<K: Sink>(teller: &mut Teller, step: StepName, sink: &mut K)
    ensures { TellsMore (step_text step) teller.old teller.new (K.state sink.old) (K.state sink.new) }
{
    match step {
        StepName::Send => teller.put(b"send", sink),
        StepName::Release(buffer) => put_numbered(teller, b"release b", buffer.0, sink),
        StepName::Signal(fence) => put_numbered(teller, b"signal f", fence.0, sink),
        StepName::Client => teller.put(b"client", sink),
        StepName::DropQueued => teller.put(b"drop", sink),
        StepName::Fail(frame) => put_numbered(teller, b"error ", frame.0, sink),
        StepName::ReturnFailed(frame, stream) => {
            put_returned(teller, frame, stream, b" error", sink);
        }
        StepName::Shutter => teller.put(b"shutter", sink),
        StepName::SensorDone(frame) => put_numbered(teller, b"sensor ", frame.0, sink),
        StepName::Partial(frame) => put_numbered(teller, b"partial ", frame.0, sink),
        StepName::TakeFill(frame, stream) => put_target(teller, b"take ", frame, stream, sink),
        StepName::FillDone(frame, stream) => put_target(teller, b"done ", frame, stream, sink),
        StepName::Deliver(frame, stream) => put_returned(teller, frame, stream, b" ok", sink),
        StepName::Early(frame, stream) => put_target(teller, b"early ", frame, stream, sink),
        StepName::Finish(frame, stream) => put_target(teller, b"filled ", frame, stream, sink),
    }
}

/// Tells a front and a number.
fn put_numbered<K: Sink>(teller: &mut Teller, front: &[u8], number: u32, sink: &mut K)
    ensures { TellsMore (front.now ++ decimal number) teller.old teller.new (K.state sink.old) (K.state sink.new) }
{
    teller.put(front, sink);
    teller.put_number(u64::from(number), sink);
}

/// Tells a front, a frame and a stream.
fn put_target<K: Sink>(
    teller: &mut Teller,
    front: &[u8],
    frame: FrameNo,
    stream: StreamIx,
    sink: &mut K,
)
    ensures { TellsMore (target_text front.now frame stream) teller.old teller.new
        (K.state sink.old) (K.state sink.new) }
{
    put_numbered(teller, front, frame.0, sink);
    put_numbered(teller, b" ", u32::from(stream.0), sink);
}

/// Tells a buffer that comes back, and how.
fn put_returned<K: Sink>(
    teller: &mut Teller,
    frame: FrameNo,
    stream: StreamIx,
    how: &[u8],
    sink: &mut K,
)
    ensures { TellsMore (target_text (codes "buffer ") frame stream ++ how.now) teller.old teller.new
        (K.state sink.old) (K.state sink.new) }
{
    put_target(teller, b"buffer ", frame, stream, sink);
    teller.put(how, sink);
}
