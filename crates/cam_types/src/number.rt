//! Numbers of frames, buffers, fences, streams and requests, each a type of its own.
/// The number of a frame: frames are numbered as they are sent or dropped, from 0 on.
#[derive(Clone, Copy, Debug, PartialEq, Eq)]
pub struct FrameNo(pub u32);

/// The number of a buffer. A buffer number is used for one buffer alone, also over configurations.
#[derive(Clone, Copy, Debug, PartialEq, Eq)]
pub struct BufferId(pub u32);

/// The number of a fence of the client, in the order in which fences are released, from 0 on.
#[derive(Clone, Copy, Debug, PartialEq, Eq)]
pub struct FenceNo(pub u32);

/// The number of a device fence: one that the device gives with a buffer that comes back before it is filled, in the order
/// of these returns, from 0 on.
#[derive(Clone, Copy, Debug, PartialEq, Eq)]
pub struct DeviceFenceNo(pub u32);

/// The place of a stream in its configuration, from 0 on.
#[derive(Clone, Copy, Debug, PartialEq, Eq)]
pub struct StreamIx(pub u8);

/// The number of an accepted `once`, `burst` or `repeat` call, from 0 on.
#[derive(Clone, Copy, Debug, PartialEq, Eq)]
pub struct RequestId(pub u32);
