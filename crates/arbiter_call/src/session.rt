//! Who holds a camera, and what the client is there for.

/// A client's number, 0 to 15.
#[derive(Clone, Copy, Debug, PartialEq, Eq)]
pub struct ClientId(pub u32);

/// A camera's number, from 0 on.
#[derive(Clone, Copy, Debug, PartialEq, Eq)]
pub struct CameraId(pub u32);

/// A client at a camera: from its grant until it is evicted or leaves.
#[derive(Clone, Copy)]
pub struct Session {
    pub client: ClientId,
    pub camera: CameraId,
    /// Who asks with a greater priority gets the camera, 0 to 1,000.
    pub priority: u32,
    /// How many frames the client waits for, 1 to 100.
    pub shots: u32,
}

/// The most cameras that there are.
pub const CAMERA_LIMIT: u32 = 4;

/// The most lines that are answered, before the last holders leave.
pub const LINE_LIMIT: u32 = 128;

/// The lines of a log that there is room for: two for each line that is answered, and for each of four last leaves.
pub const LOG_LINES: usize = 264;
