//! The program that tests run: its first word names what is tried. It writes what it saw, and ends with 1 where
//! something was wrong.
#![tactic(auto)]

mod device;
mod ends;
mod failure;
mod judges;
mod meeting;
mod workers;

use failure::NotTried;
use io_edge::{NoMemory, ReadBytes, StdSource, read_all};
use std::process::ExitCode;
use std::sync::Wait;
use std::thread::Threads;
use std::time::Clock;
use std::{env, io};

fn main(rt: HostRuntime) -> io::Result<ExitCode> {
    match run(&rt, &rt) {
        Ok(is_right) => Ok(ExitCode::from(u8::from(!is_right))),
        Err(failure) => {
            println!(rt; "nothing is tried: {failure}")?;
            Ok(ExitCode::from(failure.status()))
        }
    }
}

/// Tries what the program's words ask for, and tells whether all was right.
fn run<T: Threads + Wait + Clock + Sync>(threads: &T, rt: &HostRuntime) -> Result<bool, NotTried> {
    let texts = words_of(rt)?;
    let Some((first, rest)) = texts.as_slice().split_first() else {
        return Err(NotTried::Words);
    };
    match first.as_str() {
        "ends" => ends::try_command(threads, rt, rest),
        "workers" => workers::try_script(threads, rt, rest),
        "judges" => judges::try_trace(rt, rest),
        "device" => device::try_session(rt, rest),
        _ => Err(NotTried::Words),
    }
}

/// The words behind the program's name. Words that are no text are none.
fn words_of(rt: &HostRuntime) -> Result<Vec<String>, NoMemory> {
    let mut words = Vec::new(rt.alloc());
    if let Ok(args) = env::args(rt) {
        for text in args.skip(1) {
            words.push(text)?;
        }
    }
    Ok(words)
}

/// The standard input, if it has at most so many bytes.
fn input_of(rt: &HostRuntime, most: usize) -> Result<Vec<u8>, NotTried> {
    let mut source = StdSource::new(rt)?;
    match read_all(rt.alloc(), &mut source, most)? {
        ReadBytes::Whole(input) => Ok(input),
        ReadBytes::TooLong => Err(NotTried::Input),
    }
}
