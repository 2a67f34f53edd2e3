//! What clients are answered, and what stands in the log.
ghost use Rattle.std.specs.Prelude.{◌≡◌};
ghost use Rattle.arbiter_call.specs.Answers.{code_of};

use crate::session::{CameraId, ClientId, Session};

/// Why a client isn't served.
#[derive(Clone, Copy, Debug, PartialEq, Eq)]
pub enum Refusal {
    /// The camera is held, by a client of no lower priority.
    Busy(ClientId),
    /// The client holds a camera already.
    Holding,
    /// The client holds no camera.
    NotHolding,
}

impl Refusal {
    /// The number that stands for the refusal in what the program prints.
    pub fn code(self) -> u8
        ensures { result ≡ code_of self }
    {
        match self {
            Refusal::Busy(_) => 51,
            Refusal::Holding => 52,
            Refusal::NotHolding => 53,
        }
    }
}

/// What a client is answered.
#[derive(Clone, Copy, PartialEq, Eq)]
pub enum Answer {
    /// It gets the camera.
    Granted,
    /// It gets the camera, from which this client was evicted.
    GrantedAfter(ClientId),
    /// It left this camera.
    Left(CameraId),
    /// It isn't served.
    Refused(Refusal),
}

/// A line of the log.
#[derive(Clone, Copy)]
pub enum LogLine {
    /// A session begins.
    Grant(Session),
    /// A session ends: a client of higher priority gets its camera.
    Evict(Session),
    /// A session ends: its client leaves.
    Leave(Session),
    /// A client isn't served.
    Refused(Refusal),
}
