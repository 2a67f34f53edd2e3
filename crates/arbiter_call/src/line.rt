//! What clients ask.
use crate::session::{ClientId, Session};

/// What a client asks.
#[derive(Clone, Copy)]
pub enum ArbiterLine {
    /// It asks for a camera.
    Connect(Session),
    /// It leaves the camera that it holds.
    Leave(ClientId),
}
