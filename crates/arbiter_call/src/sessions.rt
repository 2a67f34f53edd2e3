//! The text of a log: its lines, and behind each that ends a session the summary of that session, played.
ghost use Rattle.std.specs.Prelude.{IfOk, IsTrue, OnOk, reverse};
ghost use Rattle.std.specs.List.{list_all};
ghost use Rattle.cam_types.specs.Script.{is_valid};
ghost use Rattle.arbiter_call.specs.Scripts.{shots_fit};
ghost use Rattle.arbiter_call.specs.Arbitrates.{Adds, IsLineText, IsSummary, IsWholeText};

use crate::text_sink::TextSink;
use crate::{FIRST_LINE, LAST_LINE, LogLine, line_text, script_behind};
use call_parts::{Output, Status};
use cam_types::{NoMemory, Script};
use play_calls::{play_prepared, prepare};
use run_model::a_complete_run_keeps_the_laws;
use std::alloc::{AllocError, Global};

/// Plays a session, and appends its summary. The memory of its run is given back before this returns.
fn tell_session(alloc: Global, text: &mut TextSink, script: Script) -> Result<(), NoMemory>
    requires { IsTrue (is_valid script) }
    ensures { OnOk result (Adds (IsSummary script) text.old.text.items text.new.text.items) }
{
    a_complete_run_keeps_the_laws();
    let prepared = prepare(alloc, script)?;
    let status = play_prepared(prepared, Output::Summary, text);
    if status == Status::Done {
        Ok(())
    } else {
        // The text in memory fails only for want of it.
        Err(AllocError)
    }
}

/// Appends a line, and behind it the summary of the session that it ends.
fn tell_line(alloc: Global, text: &mut TextSink, line: LogLine) -> Result<(), NoMemory>
    requires { IsTrue (shots_fit line) }
    ensures { OnOk result (Adds (IsLineText line) text.old.text.items text.new.text.items) }
{
    let words = line_text(alloc, line)?;
    text.append(words.as_slice())?;
    match script_behind(alloc, line)? {
        Some(script) => tell_session(alloc, text, script),
        None => Ok(()),
    }
}

/// The whole text of a log. One session is played after the other. It fails only for want of memory.
pub fn tell_log(alloc: Global, log: &[LogLine]) -> Result<TextSink, NoMemory>
    requires { IsTrue (list_all shots_fit log.now) }
    ensures { IfOk result (λ text. IsWholeText (reverse log.now) text.text.items) }
{
    let mut text = TextSink::new(alloc);
    text.append(FIRST_LINE)?;
    for line in log {
        tell_line(alloc, &mut text, *line)?;
    }
    text.append(LAST_LINE)?;
    Ok(text)
}
