//! One run of a command over ends in memory.
ghost use Rattle.std.specs.Prelude.{◌<◌};

use crate::meeting::{Held, Meeting};
use camera_top::camera_main;
use io_edge::{MemSink, MemSource, NoMemory};
use std::alloc::Global;
use std::sync::Wait;
use std::thread::Threads;
use std::time::Clock;
use tools_top::{Tool, tool_of, tools_main};

/// The words of a command, and its input.
#[derive(Clone, Copy)]
pub struct Command<'a> {
    pub words: &'a [&'a str],
    pub input: &'a [u8],
}

/// The call that fails, counted from 1.
#[derive(Clone, Copy)]
pub enum Failing {
    Nothing,
    Read(u32),
    Write(u32),
}

/// How a run ended: its status, what was written, and the calls of its ends.
#[derive(Drop)]
pub struct Ended {
    pub status: u8,
    pub text: Vec<u8>,
    pub reads: u32,
    pub writes: u32,
}

/// Runs the command over ends that give and take this many bytes at once, the sink with room for so many.
pub fn run_once<T: Threads + Wait + Clock + Sync>(
    threads: &T,
    alloc: Global,
    command: Command,
    room: u32,
    piece: u32,
    failing: Failing,
) -> Result<Ended, NoMemory>
    requires { 0 < piece }
{
    let mut failing_reads = Vec::new(alloc);
    let mut failing_writes = Vec::new(alloc);
    match failing {
        Failing::Nothing => {}
        Failing::Read(call) => failing_reads.push(call)?,
        Failing::Write(call) => failing_writes.push(call)?,
    }
    let input = command.input.to_vec(alloc)?;
    let mut source = MemSource::new(input, piece, failing_reads);
    let mut sink = MemSink::new(alloc, room, piece, failing_writes)?;
    let status = if asks_for_a_tool(command.words) {
        tools_main(alloc, command.words, &mut source, &mut sink)
    } else {
        camera_main(
            alloc,
            threads,
            command.words,
            &mut source,
            &mut sink,
            &Meeting::of(threads, Held::Nobody),
        )
    };
    Ok(Ended {
        status: status.number(),
        text: sink.bytes().to_vec(alloc)?,
        reads: calls_of(source.reads()),
        writes: calls_of(sink.writes()),
    })
}

/// The calls of an end, of which at most so many can be told to fail.
fn calls_of(calls: u64) -> u32 {
    u32::try_from(calls).unwrap_or(u32::MAX)
}

/// Whether the words are those of the second program alone. `help` is a word of both.
fn asks_for_a_tool(words: &[&str]) -> bool {
    !matches!(tool_of(words), None | Some(Tool::Help))
}
