//! A command of the camera over ends in memory whose calls fail in turn: the words are the command's, and the standard
//! input is its input. It writes one line with what it tried.

mod once;
mod tries;

use crate::failure::NotTried;
use crate::input_of;
use io_edge::NoMemory;
use once::Command;
use std::alloc::Global;
use std::sync::Wait;
use std::thread::Threads;
use std::time::Clock;
use tries::{Tally, try_all};

/// The most that is read of the input, in bytes.
const INPUT_BYTES: usize = 1 << 24;

/// Tries the command, and tells whether no answer was wrong.
pub fn try_command<T: Threads + Wait + Clock + Sync>(
    threads: &T,
    rt: &HostRuntime,
    words: &[String],
) -> Result<bool, NotTried> {
    let input = input_of(rt, INPUT_BYTES)?;
    let tally = try_words(threads, rt.alloc(), words, input.as_slice())?;
    println!(rt; "{tally}")?;
    Ok(tally.wrong == 0)
}

/// Tries the command of the words over this input.
fn try_words<T: Threads + Wait + Clock + Sync>(
    threads: &T,
    alloc: Global,
    texts: &[String],
    input: &[u8],
) -> Result<Tally, NoMemory> {
    let mut words = Vec::new(alloc);
    for text in texts.iter() {
        words.push(text.as_str())?;
    }
    let words = words.as_slice();
    try_all(threads, alloc, Command { words, input })
}
