//! Whether a command's answer is due.
ghost use Rattle.std.specs.Prelude.{◌≡◌, ◌↔◌, reverse, option_copied, IsTrue, Option};
ghost use Rattle.trace_model.specs.Allowed.{IsAllowed};
ghost use Rattle.trace_model.specs.Calls.{word_of};
ghost use Rattle.trace_model.specs.Client.{call_of, may_answer};
ghost use Rattle.trace_model.specs.Numbers.{call_count};
ghost use Rattle.trace_model.specs.Reply.{reply as reply_to};

use crate::over::is_over;
use crate::reply::{is_refused, is_reply};
use cam_types::{Command, Reply, Script, Word};
use judge_entries::command::{is_waiting_command, next_command, word_of};
use judge_entries::number::call_count;
use judge_filters::call::begun;
use trace_model::Entry;

/// Whether the command may be answered: a waiting one after it began, and where it isn't refused, once what it waits
/// for is over.
pub fn may_answer(script: &Script, entries: &[Entry], command: &Command) -> bool
    ensures { result ≡ may_answer script.now (reverse entries.now) command.now }
{
    (!is_waiting_command(command) || begun(entries).is_some())
        && (is_refused(script, entries, command) || is_over(script, entries, command))
}

/// Whether two words are the same.
fn is_same_word(a: Word, b: Word) -> bool
    ensures { IsTrue result ↔ (a ≡ b) }
{
    a == b
}

/// Whether the command's answer has the place, the word and the reply.
fn is_answer(
    script: &Script,
    entries: &[Entry],
    command: &Command,
    index: u32,
    word: Word,
    reply: Reply,
) -> bool
    ensures { IsTrue result ↔
        (Entry.Call (call_count (reverse entries.now)) (word_of command.now)
        (reply_to script.now (reverse entries.now) command.now) ≡ Entry.Call index word reply) }
{
    call_count(entries) == index as usize
        && (is_same_word(word_of(command), word) && is_reply(script, entries, command, reply))
}

/// Whether the command may be answered, and its answer has the place, the word and the reply.
fn is_answered(
    script: &Script,
    entries: &[Entry],
    command: Option<&Command>,
    index: u32,
    word: Word,
    reply: Reply,
) -> bool
    ensures { IsTrue result ↔
        (call_of script.now (reverse entries.now) (option_copied command.entry) ≡
        Option.Some (Entry.Call index word reply)) }
{
    match command {
        Some(command) => may_answer(script, entries, command)
            && is_answer(script, entries, command, index, word, reply),
        None => false,
    }
}

/// Whether the call is due: the next command's, with its word and its reply.
pub fn is_call_due(script: &Script, entries: &[Entry], index: u32, word: Word, reply: Reply) -> bool
    ensures { IsTrue result ↔ IsAllowed script.now (reverse entries.now) (Entry.Call index word reply) }
{
    is_answered(
        script,
        entries,
        next_command(script, entries),
        index,
        word,
        reply,
    )
}
