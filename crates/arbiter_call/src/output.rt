//! How the lines of a log are written.
ghost use Rattle.std.specs.Prelude.{◌≡◌, ◌++◌, ◌∷◌, IfOk, OnOk, string_bytes};
ghost use Rattle.text_parts.specs.Lines.{line_text};
ghost use Rattle.arbiter_call.specs.Spelling.{line_of, session_words};

use crate::{LogLine, Refusal, Session};
use cam_types::NoMemory;
use std::alloc::Global;

/// What is written first.
pub const FIRST_LINE: &[u8] = b"arbiter 1\n";

/// What is written last.
pub const LAST_LINE: &[u8] = b"end\n";

/// Writes the line of a client that isn't served.
#[tactic(auto, unfolding(crate::specs::Spelling::line_of))]
fn write_refusal(out: &mut String, why: Refusal) -> Result<(), NoMemory>
    ensures { OnOk result (string_bytes out.new ≡ string_bytes out.old ++ line_of (LogLine.Refused why)) }
{
    let code = why.code();
    match why {
        Refusal::Busy(holder) => {
            let client = holder.0;
            writeln!(out, "refused {code} {client}")
        }
        Refusal::Holding | Refusal::NotHolding => writeln!(out, "refused {code}"),
    }
}

/// Writes a line.
#[tactic(auto, unfolding(crate::specs::Spelling::line_of))]
fn write_line(out: &mut String, line: LogLine) -> Result<(), NoMemory>
    ensures { OnOk result (string_bytes out.new ≡ string_bytes out.old ++ line_of line) }
{
    match line {
        LogLine::Grant(session) => write_session(out, "grant", session),
        LogLine::Evict(session) => write_session(out, "evict", session),
        LogLine::Leave(session) => write_session(out, "leave", session),
        LogLine::Refused(why) => write_refusal(out, why),
    }
}

/// Writes the line of a session: a word, and the numbers of its client and its camera.
fn write_session(out: &mut String, word: &str, session: Session) -> Result<(), NoMemory>
    ensures { OnOk result
        (string_bytes out.new ≡ string_bytes out.old ++ line_text (word.now ∷ session_words session)) }
{
    let client = session.client.0;
    let camera = session.camera.0;
    writeln!(out, "{word} {client} {camera}")
}

/// The text of a line of a log.
pub fn line_text(alloc: Global, line: LogLine) -> Result<Vec<u8>, NoMemory>
    ensures { IfOk result (λ text. text.items ≡ line_of line) }
{
    let mut out = String::new(alloc);
    write_line(&mut out, line)?;
    Ok(out.into_bytes())
}
