//! The second program: it hands the words, standard input and standard output to the top call of the tools, and ends with
//! its status.
#![tactic(auto)]

ghost use Rattle.std.specs.Prelude.{◌≤◌};
ghost use Rattle.call_parts.specs.Program.{number_of};

use call_parts::{code_of, words_of};
use io_edge::{NoMemory, StdSink, StdSource};
use std::process::ExitCode;
use tools_top::{Status, answer_texts};

fn main(rt: HostRuntime) -> ExitCode {
    code_of(run(&rt))
}

/// Runs the top call on the program's words, standard input and standard output.
fn run(rt: &HostRuntime) -> Result<Status, NoMemory>
    ensures { number_of result ≤ 5 }
{
    let mut source = StdSource::new(rt)?;
    let mut sink = StdSink::new(rt)?;
    let texts = words_of(rt)?;
    answer_texts(rt.alloc(), texts.as_slice(), &mut source, &mut sink)
}
