//! One run on workers over ends in memory, and what is seen of it.
use crate::meeting::Meeting;
use camera_top::{Status, camera_main};
use io_edge::{MemSink, MemSource, NoMemory};
use std::alloc::Global;
use std::fmt::{self, Write};
use std::sync::Wait;
use std::thread::Threads;
use std::time::{Clock, Duration, Instant};

/// The room of the sink, in bytes.
const ROOM: u32 = 1 << 22;

/// A run whose loops make all their steps takes less, in seconds: loops that find no work end after some four.
const IN_TIME: u64 = 3;

/// What was seen of a run.
#[derive(Clone, Copy)]
pub struct Tried {
    /// How the run ended.
    pub status: u8,
    /// `check` calls its trace legal.
    pub is_legal: bool,
    /// It took less than the time.
    pub is_in_time: bool,
    /// So many fills met as were wanted, and as many left the gate as came.
    pub has_met: bool,
    /// So many fills passed the gate.
    pub fills: u32,
    /// The script asks for early returns.
    pub asks_for_early: bool,
    /// So many buffers came back early.
    pub early: usize,
}

impl Tried {
    /// Whether all is as it has to be.
    pub fn is_right(self) -> bool {
        self.status == 0
            && self.is_legal
            && self.is_in_time
            && self.has_met
            && (self.early > 0 || !self.asks_for_early)
    }
}

/// The word if the test holds, and with `not` before it where it doesn't.
#[derive(Clone, Copy)]
struct Said {
    word: &'static str,
    holds: bool,
}

impl fmt::Display for Said {
    fn fmt<W: Write>(&self, f: &mut fmt::Formatter<W>) -> fmt::Result {
        let word = self.word;
        if self.holds {
            write!(f, "{word}")
        } else {
            write!(f, "not {word}")
        }
    }
}

impl fmt::Display for Tried {
    fn fmt<W: Write>(&self, f: &mut fmt::Formatter<W>) -> fmt::Result {
        let status = self.status;
        let fills = self.fills;
        let legal = Said {
            word: "legal",
            holds: self.is_legal,
        };
        let met = Said {
            word: "met",
            holds: self.has_met,
        };
        let in_time = Said {
            word: "in time",
            holds: self.is_in_time,
        };
        let early = self.early;
        write!(
            f,
            "status {status}, {legal}, {met}, {in_time}; {fills} fills, {early} early"
        )
    }
}

/// Does what the words ask for, over ends in memory, and gives the status and what was written.
fn answer<R: Threads + Wait + Clock + Sync>(
    rt: &R,
    alloc: Global,
    words: &[&str],
    input: Vec<u8>,
    gate: &Meeting<'_, R>,
) -> Result<(Status, MemSink), NoMemory> {
    let mut source = MemSource::new(input, 4_096, Vec::new(alloc));
    let mut sink = MemSink::new(alloc, ROOM, 4_096, Vec::new(alloc))?;
    let status = camera_main(alloc, rt, words, &mut source, &mut sink, gate);
    Ok((status, sink))
}

/// How many lines of a text begin so.
fn lines_with(text: &[u8], begin: &[u8]) -> usize {
    text.split(|byte| *byte == b'\n')
        .filter(|line| line.starts_with(begin))
        .count()
}

/// Whether less than the time has passed since then. A clock that fails says nothing.
fn is_in_time<R: Clock>(rt: &R, begun: Option<Instant>) -> bool {
    match begun.map(|begun| begun.elapsed(rt)) {
        Some(Ok(taken)) => taken < Duration::from_secs(IN_TIME),
        _ => true,
    }
}

/// Runs the script on so many workers at the gate, and has its trace judged behind it.
pub fn try_run<R: Threads + Wait + Clock + Sync>(
    rt: &R,
    alloc: Global,
    workers: &str,
    script: &[u8],
    gate: &Meeting<'_, R>,
) -> Result<Tried, NoMemory> {
    let begun = Instant::now(rt).ok();
    let words = ["run", "--workers", workers];
    let (status, trace) = answer(rt, alloc, &words, script.to_vec(alloc)?, gate)?;
    let is_in_time = is_in_time(rt, begun);
    let has_met = gate.has_met() && gate.came() == gate.left();
    let fills = gate.left();
    let early = lines_with(trace.bytes(), b"early ");
    let mut judged = script.to_vec(alloc)?;
    judged.extend_from_slice(trace.bytes())?;
    let (verdict, _) = answer(rt, alloc, &["check"], judged, gate)?;
    Ok(Tried {
        status: status.number(),
        is_legal: verdict == Status::Done,
        is_in_time,
        has_met,
        fills,
        asks_for_early: lines_with(script, b"early") > 0,
        early,
    })
}
