//! Every call of a command's ends fails once, in pieces of several sizes.
ghost use Rattle.std.specs.Prelude.{◌<◌};

use super::once::{Command, Ended, Failing, run_once};
use io_edge::NoMemory;
use std::alloc::Global;
use std::fmt::{self, Write};
use std::sync::Wait;
use std::thread::Threads;
use std::time::Clock;

/// The room of the first run's sink, in bytes. The other runs have room for just what that one wrote.
const ROOM: u32 = 1 << 24;

/// The most bytes of input and text together, over all runs in which calls of one end fail, for one size of piece. Where
/// there would be more, each k-th call fails.
const MOST_BYTES: usize = 300_000_000;

/// What was tried.
#[derive(Clone, Copy)]
pub struct Tally {
    /// How the command ends where no call fails.
    pub status: u8,
    /// How many bytes it writes then.
    pub bytes: usize,
    /// The calls of both ends, for all sizes of pieces.
    pub calls: u64,
    /// How many of them failed, each in a run of its own.
    pub tried: u64,
    /// The runs whose answer was wrong.
    pub wrong: u64,
}

impl fmt::Display for Tally {
    fn fmt<W: Write>(&self, f: &mut fmt::Formatter<W>) -> fmt::Result {
        write!(
            f,
            "status {}, {} bytes; in pieces of 1, 7 and 4096 bytes {} of {} calls failed once; {} wrong",
            self.status, self.bytes, self.tried, self.calls, self.wrong
        )
    }
}

impl Tally {
    /// Counts the calls of an end.
    fn count_calls(&mut self, calls: u32) {
        self.calls = self.calls.saturating_add(u64::from(calls));
    }

    /// Counts a run with a failing call, and whether its answer was right.
    fn count_try(&mut self, is_right: bool) {
        self.tried = self.tried.saturating_add(1);
        self.count_answer(is_right);
    }

    /// Counts an answer.
    fn count_answer(&mut self, is_right: bool) {
        if !is_right {
            self.wrong = self.wrong.saturating_add(1);
        }
    }
}

/// Runs the command with each call of its ends failing in turn, in pieces of 1, 7 and 4,096 bytes.
pub fn try_all<T: Threads + Wait + Clock + Sync>(
    threads: &T,
    alloc: Global,
    command: Command,
) -> Result<Tally, NoMemory> {
    let whole = run_once(threads, alloc, command, ROOM, 4_096, Failing::Nothing)?;
    let mut tally = Tally {
        status: whole.status,
        bytes: whole.text.len(),
        calls: 0,
        tried: 0,
        wrong: 0,
    };
    try_piece(threads, alloc, command, &whole, 1, &mut tally)?;
    try_piece(threads, alloc, command, &whole, 7, &mut tally)?;
    try_piece(threads, alloc, command, &whole, 4_096, &mut tally)?;
    Ok(tally)
}

/// Runs the command with each call of its ends failing in turn, in pieces of one size, and once with none.
fn try_piece<T: Threads + Wait + Clock + Sync>(
    threads: &T,
    alloc: Global,
    command: Command,
    whole: &Ended,
    piece: u32,
    tally: &mut Tally,
) -> Result<(), NoMemory>
    requires { 0 < piece }
{
    let room = u32::try_from(whole.text.len()).unwrap_or(ROOM);
    let unbroken = run_once(threads, alloc, command, room, piece, Failing::Nothing)?;
    tally.count_answer(is_whole(&unbroken, whole));
    tally.count_calls(unbroken.reads);
    tally.count_calls(unbroken.writes);
    let length = command.input.len().saturating_add(whole.text.len());
    let gap = gap_between(unbroken.reads, length);
    for before in 0..unbroken.reads {
        if is_tried(before, gap) {
            let call = before + 1;
            let ended = run_once(threads, alloc, command, room, piece, Failing::Read(call))?;
            tally.count_try(is_source_failure(&ended, call));
        }
    }
    let gap = gap_between(unbroken.writes, length);
    for before in 0..unbroken.writes {
        if is_tried(before, gap) {
            let call = before + 1;
            let ended = run_once(threads, alloc, command, room, piece, Failing::Write(call))?;
            tally.count_try(is_sink_failure(&ended, call, whole));
        }
    }
    Ok(())
}

/// Each call of how many fails, where there are so many calls and so many bytes in each run: at least 1.
fn gap_between(calls: u32, length: usize) -> u32 {
    let most = MOST_BYTES.checked_div(length).unwrap_or(MOST_BYTES);
    let most = u32::try_from(most).unwrap_or(u32::MAX);
    calls.checked_div(most).unwrap_or(calls).saturating_add(1)
}

/// Whether the call behind so many others fails.
fn is_tried(before: u32, gap: u32) -> bool {
    before.checked_rem(gap) == Some(0)
}

/// Whether a run without a failing call ended and wrote as the first one.
fn is_whole(ended: &Ended, whole: &Ended) -> bool {
    ended.status == whole.status && ended.text.as_slice() == whole.text.as_slice()
}

/// Whether a run whose source failed at a call ended with 3, wrote nothing, and read no more.
fn is_source_failure(ended: &Ended, call: u32) -> bool {
    ended.status == 3 && ended.text.is_empty() && ended.reads == call && ended.writes == 0
}

/// Whether a run whose sink failed at a call ended with 4, wrote a front of the text that isn't the whole, and wrote no
/// more.
fn is_sink_failure(ended: &Ended, call: u32, whole: &Ended) -> bool {
    ended.status == 4
        && ended.text.len() < whole.text.len()
        && whole.text.as_slice().starts_with(ended.text.as_slice())
        && ended.writes == call
}
