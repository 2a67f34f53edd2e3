//! A command's word, the text of one, and the word of a text.

ghost use Rattle.std.specs.Prelude.{◌≡◌, ◌≤◌, length};
ghost use Rattle.text_parts.specs.CommandWords.{command_word, word_of, word_text};

use crate::word::has_text;
use cam_types::{Command, Word};

/// Every command's word, in the order of the definition.
const WORDS: [Word; 10] = [
    Word::Configure,
    Word::Once,
    Word::Burst,
    Word::Repeat,
    Word::Stop,
    Word::Wait,
    Word::Await,
    Word::Flush,
    Word::Close,
    Word::Disconnect,
];

/// The command that has this word.
#[tactic(auto, unfolding(crate::specs::CommandWords::command_word))]
pub fn command_word(text: &[u8]) -> Option<Word>
    ensures { result ≡ command_word text.now }
{
    WORDS
        .iter()
        .copied()
        .find(|word| has_text(text, word_text(*word)))
}

/// The text of a command's word, which has at most ten bytes.
pub fn word_text(word: Word) -> &'static str
    ensures text { result.now ≡ word_text word }
    ensures long { length result.now ≤ 10 }
{
    match word {
        Word::Configure => "configure",
        Word::Once => "once",
        Word::Burst => "burst",
        Word::Repeat => "repeat",
        Word::Stop => "stop",
        Word::Wait => "wait",
        Word::Await => "await",
        Word::Flush => "flush",
        Word::Close => "close",
        Word::Disconnect => "disconnect",
    }
}

/// The word of a command.
pub fn word_of(command: &Command) -> Word
    ensures { result ≡ word_of command.now }
{
    match command {
        Command::Configure(_) => Word::Configure,
        Command::Once(_) => Word::Once,
        Command::Burst(_) => Word::Burst,
        Command::Repeat(_) => Word::Repeat,
        Command::Stop => Word::Stop,
        Command::Wait => Word::Wait,
        Command::Await(_) => Word::Await,
        Command::Flush => Word::Flush,
        Command::Close => Word::Close,
        Command::Disconnect => Word::Disconnect,
    }
}
