//! The errors that a device tells.
use cam_types::{FrameNo, StreamIx};

/// An error message (camera3.h, camera3_error_msg).
#[derive(Clone, Copy)]
pub enum ErrorEntry {
    /// ERROR_REQUEST: the capture of the frame failed whole.
    Request(FrameNo),
    /// ERROR_RESULT: the metadata of the frame that didn't come won't come.
    Result(FrameNo),
    /// ERROR_BUFFER: the buffer of the frame for the stream won't be filled.
    Buffer(FrameNo, StreamIx),
    /// ERROR_DEVICE: the device failed. It is of no frame.
    Device,
}
