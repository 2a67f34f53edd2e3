//! What the fills of the stages pass.
use cam_types::{FrameNo, StreamIx};

/// Told of each fill as it begins and as it ends, outside of any turn. A gate may hold a fill for a while, so that fills
/// fall in an order of its own. It changes nothing of the camera.
pub trait Gate {
    /// A stage is about to fill the buffer of a frame and a stream.
    fn enter(&self, frame: FrameNo, stream: StreamIx);

    /// The stage has filled it, and hasn't given it back yet.
    fn leave(&self, frame: FrameNo, stream: StreamIx);
}

/// The gate that holds nothing up.
#[derive(Clone, Copy, PartialEq, Eq)]
pub struct OpenGate;

impl Gate for OpenGate {
    fn enter(&self, _frame: FrameNo, _stream: StreamIx) {}

    fn leave(&self, _frame: FrameNo, _stream: StreamIx) {}
}
