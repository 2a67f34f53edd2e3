//! The program: it hands the words, standard input and standard output to the top call, and ends with its status.
#![tactic(auto)]

ghost use Rattle.std.specs.Prelude.{◌≤◌};
ghost use Rattle.call_parts.specs.Program.{number_of};

use call_parts::{code_of, words_of};
use camera_top::{Status, answer_texts};
use io_edge::{NoMemory, StdSink, StdSource};
use std::process::ExitCode;
use std::sync::Wait;
use std::thread::Threads;
use std::time::Clock;

fn main(rt: HostRuntime) -> ExitCode {
    code_of(run(&rt, &rt))
}

/// Runs the top call on the program's words, standard input and standard output, with threads where it starts some.
fn run<T: Threads + Wait + Clock + Sync>(threads: &T, rt: &HostRuntime) -> Result<Status, NoMemory>
    ensures { number_of result ≤ 5 }
{
    let mut source = StdSource::new(rt)?;
    let mut sink = StdSink::new(rt)?;
    let texts = words_of(rt)?;
    answer_texts(
        threads,
        rt.alloc(),
        texts.as_slice(),
        &mut source,
        &mut sink,
    )
}
