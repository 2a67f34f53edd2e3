//! Who has which camera, by what clients ask.
ghost use Rattle.std.specs.Prelude.{◌≡◌, ◌+◌, ◌≤◌, ◌<◌, ◌∷◌, ◌++◌, [], Some, None, false, true, IfOk, IfNone, IfSome, IsTrue, OnSome, MatchOption, length, nat_le, reverse};
ghost use Rattle.std.specs.List.{list_all};
ghost use mathlib.Core.List.{IsPrefix};
ghost use Rattle.arbiter_call.specs.Answers.{added, after, answer_to, asked, closed, ended, log_of};
ghost use Rattle.arbiter_call.specs.Arbitration.{IsMade};
ghost use Rattle.arbiter_call.specs.Laws.{KeepsLaws};
ghost use Rattle.arbiter_call.specs.Log.{held, holder, is_of, session_of};
ghost use Rattle.arbiter_call.specs.Ranges.{is_client, is_count, is_line, is_logged, is_session};

use crate::answer::{Answer, LogLine, Refusal};
use crate::line::ArbiterLine;
use crate::session::{CameraId, ClientId, LINE_LIMIT, LOG_LINES, Session};
use crate::session_log::SessionLog;
use cam_types::NoMemory;
use std::alloc::Global;
use std::marker::Model;
use turn_lock::Kept;

/// The session at a camera, if it is the client's.
fn session_at(log: &SessionLog, camera: u32, client: ClientId) -> Option<Session>
    requires { camera < 4 }
    ensures other { IfNone result (is_of client.0 (session_of camera log.now) ≡ false) }
    ensures own { IfSome result (λ _. IsTrue (is_of client.0 (session_of camera log.now))) }
    ensures session { IfSome result (λ s. (s.camera.0 ≡ camera) × (session_of camera log.now ≡ Some s)) }
{
    let session = log.session(CameraId(camera))?;
    if session.client == client {
        Some(session)
    } else {
        None
    }
}

/// The session of a client, if it holds a camera.
fn session_by(log: &SessionLog, cameras: u32, client: ClientId) -> Option<Session>
    requires { cameras ≤ 4 }
    ensures { MatchOption result (held cameras client.0 log.now ≡ None)
        (λ s. (held cameras client.0 log.now ≡ Some s.camera.0) × (session_of s.camera.0 log.now ≡ Some s)) }
{
    for camera in 0..cameras {
        if let Some(session) = session_at(log, camera, client) {
            return Some(session);
        }
    }
    None
}

/// Answers a client that isn't served.
fn refuse(log: &mut SessionLog, why: Refusal) -> Answer
    requires { length log.old < LOG_LINES }
    ensures answer { result ≡ Answer.Refused why }
    ensures log { log.new ≡ LogLine.Refused why ∷ log.old }
{
    log.push(LogLine::Refused(why));
    Answer::Refused(why)
}

/// Ends a session whose client leaves.
fn release(log: &mut SessionLog, session: Session) -> Answer
    requires room { length log.old < LOG_LINES }
    requires camera { session.camera.0 < 4 }
    ensures answer { result ≡ Answer.Left session.camera }
    ensures log { log.new ≡ LogLine.Leave session ∷ log.old }
{
    log.push(LogLine::Leave(session));
    Answer::Left(session.camera)
}

/// Gives a camera to a client that holds none, if it is free or held with a lower priority.
fn give(log: &mut SessionLog, session: Session) -> Answer
    requires room { length log.old + 2 ≤ LOG_LINES }
    requires camera { session.camera.0 < 4 }
    ensures answer { result ≡ asked session (session_of session.camera.0 log.old) }
    ensures log { log.new ≡ added log.old (ArbiterLine.Connect session) result ++ log.old }
{
    match log.session(session.camera) {
        None => grant(log, session),
        Some(other) if other.priority < session.priority => replace(log, other, session),
        Some(other) => refuse(log, Refusal::Busy(other.client)),
    }
}

/// Gives a free camera to a client.
fn grant(log: &mut SessionLog, session: Session) -> Answer
    requires room { length log.old < LOG_LINES }
    requires camera { session.camera.0 < 4 }
    ensures answer { result ≡ Answer.Granted }
    ensures log { log.new ≡ LogLine.Grant session ∷ log.old }
{
    log.push(LogLine::Grant(session));
    Answer::Granted
}

/// Evicts a client from its camera, which another gets.
fn replace(log: &mut SessionLog, evicted: Session, session: Session) -> Answer
    requires room { length log.old + 2 ≤ LOG_LINES }
    requires camera { session.camera.0 < 4 }
    requires evicted { evicted.camera.0 < 4 }
    ensures answer { result ≡ Answer.GrantedAfter evicted.client }
    ensures log { log.new ≡ LogLine.Grant session ∷ (LogLine.Evict evicted ∷ log.old) }
{
    log.push(LogLine::Evict(evicted));
    log.push(LogLine::Grant(session));
    Answer::GrantedAfter(evicted.client)
}

/// Cameras, who holds them, and the log of what clients were answered. A contract sees how many cameras there are, and
/// the log, the newest line first. No call but `new` takes memory.
#[derive(Drop)]
pub struct Arbiter {
    cameras: u32,
    log: SessionLog,
}

impl Model for Arbiter {
    ghost use Rattle.arbiter_call.specs.Arbitration.{Arbitration, IsMade};

    ghost Value = { Arbitration };

    ghost view = { λ a. record { cameras = a.cameras; past = a.log } };

    ghost invariant = { λ a. IsMade a.cameras a.log };
}

impl Kept for Arbiter {
    ghost use Rattle.std.specs.Prelude.{[], reverse};

    type Fixed = u32;

    type Entry = LogLine;

    type Job = ();

    // The number of cameras.
    ghost fixed = { λ a. a.cameras };

    // The log, the first line first.
    ghost entries = { λ a. reverse a.past };

    // Nothing leaves the arbiter.
    ghost jobs = { λ _. [] };
}

impl Arbiter {
    /// An arbiter of 1 to 4 cameras, which nobody holds, with room for `LOG_LINES` lines. It fails only for want of memory.
    pub fn new(alloc: Global, cameras: u32) -> Result<Arbiter, NoMemory>
        requires { IsTrue (is_count cameras) }
        ensures { IfOk result (λ arbiter. arbiter ≡ record { cameras = cameras; past = [] }) }
    {
        let log = SessionLog::new(alloc)?;
        Ok(Arbiter { cameras, log })
    }

    /// How many cameras there are.
    pub fn cameras(&self) -> u32
        ensures { result ≡ self.now.cameras }
    {
        self.cameras
    }

    /// The log, the first line first.
    pub fn log(&self) -> &[LogLine]
        ensures { result.now ≡ reverse self.now.past }
    {
        self.log.lines()
    }

    /// The client that holds a camera.
    pub fn holder(&self, camera: CameraId) -> Option<ClientId>
        requires { camera.0 < self.now.cameras }
        ensures { result ≡ holder camera.0 self.now.past }
    {
        let session = self.log.session(camera)?;
        Some(session.client)
    }

    /// Whether there is room for the lines of one more answer.
    pub fn has_room(&self) -> bool
        ensures { result ≡ nat_le (length self.now.past + 2) LOG_LINES }
    {
        self.log.len() + 2 <= LOG_LINES
    }

    /// A client asks for a camera. Where it is held with a lower priority its holder is evicted.
    pub fn connect(&mut self, session: Session) -> Answer
        requires range { IsTrue (is_session self.old.cameras session) }
        requires room { length self.old.past + 2 ≤ LOG_LINES }
        ensures answer { result ≡ answer_to self.old.cameras self.old.past (ArbiterLine.Connect session) }
        ensures log { self.new ≡ record self.old {
          past = after self.old.cameras self.old.past (ArbiterLine.Connect session);
        } }
    {
        match session_by(&self.log, self.cameras, session.client) {
            Some(_) => refuse(&mut self.log, Refusal::Holding),
            None => give(&mut self.log, session),
        }
    }

    /// A client leaves the camera that it holds.
    pub fn leave(&mut self, client: ClientId) -> Answer
        requires range { IsTrue (is_client client.0) }
        requires room { length self.old.past < LOG_LINES }
        ensures answer { result ≡ answer_to self.old.cameras self.old.past (ArbiterLine.Leave client) }
        ensures log { self.new ≡ record self.old {
          past = after self.old.cameras self.old.past (ArbiterLine.Leave client);
        } }
    {
        match session_by(&self.log, self.cameras, client) {
            Some(session) => release(&mut self.log, session),
            None => refuse(&mut self.log, Refusal::NotHolding),
        }
    }

    /// Answers a line.
    pub fn answer(&mut self, line: ArbiterLine) -> Answer
        requires range { IsTrue (is_line self.old.cameras line) }
        requires room { length self.old.past + 2 ≤ LOG_LINES }
        ensures answer { result ≡ answer_to self.old.cameras self.old.past line }
        ensures log { self.new ≡ record self.old { past = after self.old.cameras self.old.past line } }
    {
        match line {
            ArbiterLine::Connect(session) => self.connect(session),
            ArbiterLine::Leave(client) => self.leave(client),
        }
    }

    /// Answers a line, if the log has room for the lines of one more answer. Otherwise the arbiter is as it was.
    pub fn try_answer(&mut self, line: ArbiterLine) -> Option<Answer>
        requires { IsTrue (is_line self.old.cameras line) }
        ensures answer { IfSome result (λ answer. answer ≡ answer_to self.old.cameras self.old.past line) }
        ensures log { OnSome result (self.new ≡ record self.old {
          past = after self.old.cameras self.old.past line;
        }) }
        ensures full { IfNone result ((self.new ≡ self.old) × (LOG_LINES < length self.old.past + 2)) }
        ensures cameras { self.new.cameras ≡ self.old.cameras }
        ensures begins { IsPrefix (reverse self.old.past) (reverse self.new.past) }
    {
        if self.has_room() {
            Some(self.answer(line))
        } else {
            None
        }
    }

    /// Whatever calls were made: the log is what some lines made, and it keeps the laws.
    pub fn keeps_the_laws(&self)
        ensures made { IsMade self.now.cameras self.now.past }
        ensures laws { KeepsLaws self.now.past }
        ensures range { list_all (is_logged self.now.cameras) self.now.past ≡ true }
    {
        let _made = &self.log;
    }

    /// The holder of a camera leaves, if there is one.
    fn vacate(&mut self, camera: u32)
        requires camera { camera < self.old.cameras }
        requires room { length self.old.past < LOG_LINES }
        ensures { self.new ≡ record self.old {
          past = ended LogLine.Leave (session_of camera self.old.past) ++ self.old.past;
        } }
    {
        self.keeps_the_laws();
        if let Some(client) = self.holder(CameraId(camera)) {
            self.leave(client);
        }
    }

    /// Each client that holds a camera leaves it, by camera.
    pub fn leave_all(&mut self)
        requires { length self.old.past + self.old.cameras ≤ LOG_LINES }
        ensures { self.new ≡ record self.old { past = closed self.old.cameras self.old.past } }
    {
        for camera in 0..self.cameras() {
            self.vacate(camera);
        }
    }
}

/// The arbiter of cameras that nobody holds, once it has answered all lines and the last holders have left. It fails only
/// for want of memory.
pub fn arbitrate(alloc: Global, cameras: u32, lines: &[ArbiterLine]) -> Result<Arbiter, NoMemory>
    requires count { IsTrue (is_count cameras) }
    requires range { IsTrue (list_all (is_line cameras) lines.now) }
    requires few { length lines.now ≤ LINE_LIMIT }
    ensures { IfOk result (λ arbiter. arbiter ≡ record { cameras = cameras; past = log_of cameras lines.now }) }
{
    let mut arbiter = Arbiter::new(alloc, cameras)?;
    for line in lines {
        arbiter.answer(*line);
    }
    arbiter.leave_all();
    Ok(arbiter)
}
