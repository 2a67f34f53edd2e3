//! `run` over ends in memory, at a gate where so many fills wait for one another, or the first waits for so many. The
//! words are how many workers there are and how many fills, with `first` behind them where the first alone waits;
//! standard input is the script. It writes one line with what it saw.

mod tried;

use crate::failure::NotTried;
use crate::input_of;
use crate::meeting::{Held, Meeting};
use std::sync::Wait;
use std::thread::Threads;
use std::time::Clock;
use tried::try_run;

/// The most that is read of the script, in bytes.
const SCRIPT_BYTES: usize = 65_536;

/// Runs the script, and tells whether all was as it has to be.
pub fn try_script<T: Threads + Wait + Clock + Sync>(
    threads: &T,
    rt: &HostRuntime,
    words: &[String],
) -> Result<bool, NotTried> {
    let Some((workers, fills)) = words.split_first() else {
        return Err(NotTried::Words);
    };
    let held = held_by(fills)?;
    let script = input_of(rt, SCRIPT_BYTES)?;
    let gate = Meeting::of(threads, held);
    let tried = try_run(
        threads,
        rt.alloc(),
        workers.as_str(),
        script.as_slice(),
        &gate,
    )?;
    println!(rt; "{tried}")?;
    Ok(tried.is_right())
}

/// Which fills wait, by the words.
fn held_by(words: &[String]) -> Result<Held, NotTried> {
    let number = |fills: &String| fills.as_str().parse().map_err(|_| NotTried::Words);
    match words {
        [fills] => Ok(Held::Each(number(fills)?)),
        [fills, first] if first.as_str() == "first" => Ok(Held::First(number(fills)?)),
        _ => Err(NotTried::Words),
    }
}
