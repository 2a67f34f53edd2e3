//! What a command says by itself: its word, and what the words ask of the service.
ghost use Rattle.std.specs.Prelude.{◌≡◌, Option, option_copied};
ghost use Rattle.trace_model.specs.Calls.{is_closing_word, is_waiting_command, word_of};
ghost use Rattle.trace_model.specs.Entry.{is_refusal};
ghost use Rattle.trace_model.specs.Reply.{is_configure_command};
ghost use Rattle.trace_model.specs.Send.{awaited_in, holds_back};
ghost use Rattle.trace_model.specs.Stopping.{stops_by};

use cam_types::{Command, Reply, Word};

/// The command's word.
pub(crate) fn word_of(command: &Command) -> Word
    ensures { result ≡ word_of command.now }
{
    match command {
        Command::Configure(_) => Word::Configure,
        Command::Once(_) => Word::Once,
        Command::Burst(_) => Word::Burst,
        Command::Repeat(_) => Word::Repeat,
        Command::Stop => Word::Stop,
        Command::Wait => Word::Wait,
        Command::Await(_) => Word::Await,
        Command::Flush => Word::Flush,
        Command::Close => Word::Close,
        Command::Disconnect => Word::Disconnect,
    }
}

/// Whether the command begins before it is answered.
pub(crate) fn is_waiting(command: &Command) -> bool
    ensures { result ≡ is_waiting_command command.now }
{
    matches!(
        command,
        Command::Configure(_)
            | Command::Wait
            | Command::Await(_)
            | Command::Flush
            | Command::Close
            | Command::Disconnect
    )
}

/// Whether the command configures.
pub(crate) fn is_configure(command: &Command) -> bool
    ensures { result ≡ is_configure_command command.now }
{
    matches!(command, Command::Configure(_))
}

/// Whether a command with the word closes the service for good.
pub(crate) fn is_closing(word: Word) -> bool
    ensures { result ≡ is_closing_word word }
{
    matches!(word, Word::Close | Word::Disconnect)
}

/// Whether the command that has begun stops the frames in process.
pub(crate) fn is_stopped_by(begun: Option<Word>) -> bool
    ensures { result ≡ stops_by begun }
{
    matches!(begun, Some(Word::Flush | Word::Disconnect))
}

/// Whether the command that has begun holds repeating items back.
pub(crate) fn holds_back(begun: Option<Word>) -> bool
    ensures { result ≡ holds_back begun }
{
    matches!(begun, Some(Word::Configure | Word::Close))
}

/// How many repeating frames the command waits for, where it is an `await` that has begun.
pub(crate) fn awaited(begun: Option<Word>, command: Option<&Command>) -> u32
    ensures { result ≡ awaited_in begun (option_copied command.entry) }
{
    match (begun, command) {
        (Some(Word::Await), Some(Command::Await(frames))) => *frames,
        _ => 0,
    }
}

/// Whether the reply refuses.
pub(crate) fn is_refusal(reply: &Reply) -> bool
    ensures { result ≡ is_refusal reply.now }
{
    matches!(reply, Reply::Refused { .. })
}
