//! A log with the sessions that stand at the cameras.
ghost use Rattle.std.specs.Prelude.{◌≡◌, ◌∷◌, ◌<◌, ◌≤◌, [], IfOk, IfSome, IsTrue, length, reverse};
ghost use Rattle.arbiter_call.specs.Inside.{line_fits};
ghost use Rattle.arbiter_call.specs.Log.{session_of};

use crate::answer::LogLine;
use crate::session::{CameraId, LOG_LINES, Session};
use cam_types::NoMemory;
use std::alloc::Global;
use std::marker::Model;

/// A log with room for `LOG_LINES` lines. A contract sees it with the newest line first. It knows the session at each
/// camera, so that no question takes longer as the log grows.
#[derive(Drop)]
pub(crate) struct SessionLog {
    lines: Vec<LogLine>,
    standing: [Option<Session>; 4],
}

impl Model for SessionLog {
    ghost use Rattle.std.specs.Prelude.{List, reverse, vec_capacity};
    ghost use Rattle.arbiter_call.specs.Inside.{IsKept};
    ghost use Rattle.arbiter_call.specs.declared.answer.LogLine.{LogLine as ALine};

    ghost Value = { List ALine };

    ghost view = { λ l. reverse l.lines.items };

    ghost invariant = { λ l. IsKept (reverse l.lines.items) l.standing (vec_capacity l.lines) };
}

impl SessionLog {
    /// The empty log, with its room.
    pub(crate) fn new(alloc: Global) -> Result<SessionLog, NoMemory>
        ensures { IfOk result (λ log. log ≡ []) }
    {
        let lines = Vec::with_capacity(alloc, LOG_LINES)?;
        Ok(SessionLog {
            lines,
            standing: [None; 4],
        })
    }

    /// Adds a line. It takes no memory.
    pub(crate) fn push(&mut self, line: LogLine)
        requires room { length self.old < LOG_LINES }
        requires fits { IsTrue (line_fits line) }
        ensures { self.new ≡ line ∷ self.old }
    {
        match line {
            LogLine::Grant(session) => self.standing[session.camera.0 as usize] = Some(session),
            LogLine::Evict(session) | LogLine::Leave(session) => {
                self.standing[session.camera.0 as usize] = None;
            }
            LogLine::Refused(_) => {}
        }
        self.lines.push_reserved(line);
    }

    /// The session at a camera.
    pub(crate) fn session(&self, camera: CameraId) -> Option<Session>
        requires { camera.0 < 4 }
        ensures value { result ≡ session_of camera.0 self.now }
        ensures camera { IfSome result (λ session. session.camera.0 ≡ camera.0) }
    {
        self.standing[camera.0 as usize]
    }

    /// How many lines there are.
    pub(crate) fn len(&self) -> usize
        ensures value { result ≡ length self.now }
        ensures few { result ≤ LOG_LINES }
    {
        self.lines.len()
    }

    /// The lines, the first one first.
    pub(crate) fn lines(&self) -> &[LogLine]
        ensures { result.now ≡ reverse self.now }
    {
        self.lines.as_slice()
    }
}
