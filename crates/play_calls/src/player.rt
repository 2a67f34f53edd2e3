//! `play`: a script is read and played, and its trace written. `gen`: a script is generated and played, and the summary
//! of its trace written.
ghost use Rattle.std.specs.Prelude.{◌≡◌, ◌≤◌, ◌⊎◌, IsTrue};
ghost use Rattle.cam_types.specs.Script.{is_valid};
ghost use Rattle.play_calls.specs.Generated.{generated};
ghost use Rattle.call_parts.specs.Answers.{OnDone, Tells, TellsBy};
ghost use Rattle.call_parts.specs.Ends.{CountsSink, KeepsEnds};
ghost use Rattle.play_calls.specs.Says.{IsWhole, IsWholeRun, Says, SaysOfScript, SaysOfSeed};
ghost use Rattle.call_parts.specs.Status.{status_number};

use crate::prepared::{play_prepared, prepare};
use crate::{generate, generated_scripts_are_valid};
use call_parts::{Output, ScriptInput, ScriptWork, Status, answer_input};
use cam_types::{SCRIPT_BYTES, Script};
use io_edge::{Sink, Source};
use run_model::a_complete_run_keeps_the_laws;
use std::alloc::Global;

/// What `play` makes of a script.
#[derive(Drop)]
struct Play;

impl ScriptWork for Play {
    ghost use Rattle.call_parts.specs.declared.output.Output.TheVariants.{Trace};
    ghost use Rattle.play_calls.specs.Says.{SaysOfScript};

    ghost belongs = { λ _. SaysOfScript Trace };

    fn answer_script<K: Sink>(&self, alloc: Global, script: Script, sink: &mut K) -> Status {
        play_script(alloc, script, Output::Trace, sink)
    }

    fn keeps_the_law(&self) {}
}

/// Reads a script, plays it and writes its trace.
pub fn play_call<S: Source, K: Sink>(alloc: Global, source: &mut S, sink: &mut K) -> Status
    // The headline: at status 0 the source was read to its end, its bytes spell a script, and what was written is the
    // whole trace of the script's played run, which is complete and keeps the laws, and nothing else.
    ensures whole { OnDone IsWhole (status_number result) (S.left source.old) (S.left source.new) (K.state sink.old)
        (K.state sink.new) }
    // Each status and each text has its cause in the input's meaning.
    ensures tells { Tells Says (S.left source.old) (status_number result) (K.state sink.old) (K.state sink.new) }
    ensures ends { KeepsEnds SCRIPT_BYTES (status_number result) (S.faults source.old) (S.faults source.new) (S.left source.old)
        (S.left source.new) (K.state sink.old) (K.state sink.new) }
{
    a_complete_run_keeps_the_laws();
    answer_input(alloc, source, sink, SCRIPT_BYTES, &ScriptInput(Play))
}

/// Plays the script of so many commands that the seed generates, and writes the summary of its trace.
pub fn gen_call<K: Sink>(alloc: Global, seed: u64, count: u32, sink: &mut K) -> Status
    requires { count ≤ 200 }
    // At status 0 what was written is the summary of the script's played run, which is complete and keeps the laws.
    ensures whole { status_number result ≡ 0
        → IsWholeRun Output.Summary (generated seed count) (K.state sink.old) (K.state sink.new) }
    // The status is 0, or 4 or 5 for its reason.
    ensures tells { TellsBy (SaysOfSeed seed count) (status_number result) (K.state sink.old) (K.state sink.new) }
    ensures sink { CountsSink (status_number result) (K.state sink.old) (K.state sink.new) }
    ensures known { (status_number result ≡ 0) ⊎ ((status_number result ≡ 4) ⊎ (status_number result ≡ 5)) }
{
    a_complete_run_keeps_the_laws();
    generated_scripts_are_valid();
    match generate(alloc, seed, count) {
        Ok(script) => play_script(alloc, script, Output::Summary, sink),
        Err(_) => Status::NoMemory,
    }
}

/// Plays a script and writes its trace, or the summary of that.
fn play_script<K: Sink>(alloc: Global, script: Script, output: Output, sink: &mut K) -> Status
    requires { IsTrue (is_valid script) }
    ensures { TellsBy (SaysOfScript output script) (status_number result) (K.state sink.old) (K.state sink.new) }
{
    match prepare(alloc, script) {
        Ok(prepared) => play_prepared(prepared, output, sink),
        Err(_) => Status::NoMemory,
    }
}
