//! What every refusal has.
ghost use Rattle.std.specs.Prelude.{◌≡◌, ◌++◌, OnOk};
ghost use Rattle.std.specs.Option.{option_map};
ghost use Rattle.wrong_words.specs.Refused.{cause_place, line_place, refused_head, sentence_text, shown_at, told, word_and_place, wrong_part};
ghost use Rattle.wrong_words.specs.Shown.{shown};

use crate::{WordKind, kind_text, put_number, put_shown};
use cam_types::NoMemory;
use std::alloc::Global;

/// Writes which line it is of.
#[tactic(auto, unfolding(crate::specs::Refused::line_place))]
fn put_line_place(text: &mut Vec<u8>, alloc: Global, number: u32) -> Result<(), NoMemory>
    ensures { OnOk result (text.new.items ≡ text.old.items ++ line_place number) }
{
    if number == 0 {
        return Ok(());
    }
    text.extend_from_slice(b" line ")?;
    put_number(text, alloc, u64::from(number))
}

/// Writes the number of the cause.
#[tactic(auto, unfolding(crate::specs::Refused::cause_place))]
fn put_cause_place(text: &mut Vec<u8>, alloc: Global, cause: u8) -> Result<(), NoMemory>
    ensures { OnOk result (text.new.items ≡ text.old.items ++ cause_place cause) }
{
    text.extend_from_slice(b" (cause ")?;
    put_number(text, alloc, u64::from(cause))?;
    text.extend_from_slice(b")\n")
}

/// Writes the first line: what is refused, its line and the number of its cause.
#[tactic(auto, unfolding(crate::specs::Refused::refused_head))]
pub fn put_head(
    text: &mut Vec<u8>,
    alloc: Global,
    front: &[u8],
    number: u32,
    cause: u8,
) -> Result<(), NoMemory>
    ensures { OnOk result (text.new.items ≡ text.old.items ++ refused_head front.now number cause) }
{
    text.extend_from_slice(front)?;
    put_line_place(text, alloc, number)?;
    put_cause_place(text, alloc, cause)
}

/// Writes the line, where there is one that isn't empty.
pub fn put_shown_at(text: &mut Vec<u8>, line: Option<&[u8]>) -> Result<(), NoMemory>
    ensures { OnOk result
        (text.new.items ≡ text.old.items ++ shown_at (option_map (λ line. line.now) line.entry)) }
{
    match line {
        None | Some([]) => Ok(()),
        Some(line) => {
            text.extend_from_slice(b"    ")?;
            put_shown(text, line)?;
            text.extend_from_slice(b"\n")
        }
    }
}

/// Writes the sentence of a cause, and where all causes stand.
#[tactic(auto, unfolding(crate::specs::Refused::sentence_text))]
pub fn put_sentence(text: &mut Vec<u8>, sentence: &str) -> Result<(), NoMemory>
    ensures { OnOk result (text.new.items ≡ text.old.items ++ sentence_text sentence.now) }
{
    text.extend_from_slice(sentence.as_bytes())?;
    text.extend_from_slice(b".\n(docs/FORMATS.md, Causes)\n")
}

/// Writes a line of a heading and a text.
pub fn put_told(text: &mut Vec<u8>, heading: &[u8], body: &[u8]) -> Result<(), NoMemory>
    ensures { OnOk result (text.new.items ≡ text.old.items ++ told heading.now body.now) }
{
    text.extend_from_slice(heading)?;
    text.extend_from_slice(body)?;
    text.extend_from_slice(b"\n")
}

/// Writes a line of a heading and a word of the input.
fn put_word(text: &mut Vec<u8>, heading: &[u8], word: &[u8]) -> Result<(), NoMemory>
    ensures { OnOk result (text.new.items ≡ text.old.items ++ told heading.now (shown word.now)) }
{
    text.extend_from_slice(heading)?;
    put_shown(text, word)?;
    text.extend_from_slice(b"\n")
}

/// Writes a word that is wrong, and what may stand in its place.
pub fn put_word_and_place(text: &mut Vec<u8>, word: &[u8], place: &str) -> Result<(), NoMemory>
    ensures { OnOk result (text.new.items ≡ text.old.items ++ word_and_place word.now place.now) }
{
    put_word(text, b"The word: ", word)?;
    put_told(text, b"There may stand: ", place.as_bytes())
}

/// Writes the wrong word, where there is one.
pub fn put_wrong(text: &mut Vec<u8>, wrong: Option<(WordKind, &[u8])>) -> Result<(), NoMemory>
    ensures { OnOk result (text.new.items ≡ text.old.items
        ++ wrong_part (option_map (λ wrong. (wrong.0, wrong.1.now)) wrong.entry)) }
{
    match wrong {
        Some((kind, word)) => put_word_and_place(text, word, kind_text(kind)),
        None => Ok(()),
    }
}
