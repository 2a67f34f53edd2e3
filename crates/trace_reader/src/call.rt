//! The lines of the client's commands.

ghost use Rattle.std.specs.Prelude.{◌≡◌, ◌∷◌, ◌<◌};
ghost use Rattle.text_parts.specs.Words.{strict_words_behind};
ghost use Rattle.trace_reader.specs.Values.{made};
ghost use Rattle.text_parts.specs.CommandWords.{command_word};
ghost use Rattle.trace_reader.specs.Lines.{up_to_four, nothing, submission, next_value, rest_of, waiting_word, begin_of, refusal, acceptance, reply_of, call_with, call_of};

use crate::cause::Cause;
use crate::number::{byte, small};
use crate::word::{both, made, numbered};
use cam_types::{Four, Made, Reply, RequestId, Word};
use text_parts::{command_word, has_text, next_strict_word, one_strict_word};
use trace_model::Entry;

/// The word of a waiting command.
fn waiting_word(word: &[u8]) -> Result<Word, Cause>
    ensures { result ≡ waiting_word (command_word word.now) }
{
    match command_word(word) {
        None | Some(Word::Once | Word::Burst | Word::Repeat | Word::Stop) => Err(Cause::BadLine),
        Some(word) => Ok(word),
    }
}

/// `W` of a command that begins.
pub fn begin_of(rest: &[u8]) -> Result<Entry, Cause>
    ensures { result ≡ begin_of (strict_words_behind rest.now) }
{
    let Some(word) = one_strict_word(rest) else {
        return Err(Cause::BadLine);
    };
    let word = waiting_word(word)?;
    Ok(Entry::Begin { word })
}

/// A refusal by its code, its first number and what stands behind this.
fn refusal_with(code: &[u8], first: &[u8], rest: &[u8]) -> Result<Reply, Cause>
    ensures { result ≡ refusal (code.now ∷ first.now ∷ strict_words_behind rest.now) }
{
    let Some((second, rest)) = next_strict_word(rest) else {
        let (code, first) = both(byte(code), small(first))?;
        let (first, second) = (Some(first), None);
        return Ok(Reply::Refused {
            code,
            first,
            second,
        });
    };
    if next_strict_word(rest).is_some() {
        return Err(Cause::BadLine);
    }
    let (code, (first, second)) = both(byte(code), both(small(first), small(second)))?;
    let (first, second) = (Some(first), Some(second));
    Ok(Reply::Refused {
        code,
        first,
        second,
    })
}

/// The code of a refusal and its numbers.
fn refusal(rest: &[u8]) -> Result<Reply, Cause>
    ensures { result ≡ refusal (strict_words_behind rest.now) }
{
    let Some((code, rest)) = next_strict_word(rest) else {
        return Err(Cause::BadLine);
    };
    if let Some((first, rest)) = next_strict_word(rest) {
        return refusal_with(code, first, rest);
    }
    let (code, first, second) = (byte(code)?, None, None);
    Ok(Reply::Refused {
        code,
        first,
        second,
    })
}

/// The buffers of a stream, where there is one more word, and what stands behind it.
fn next_made(stream: u8, rest: &[u8]) -> (Result<Option<Made>, Cause>, &[u8])
    requires { stream < 10 }
    ensures value { result.0 ≡ next_value (made stream) (strict_words_behind rest.now) }
    ensures rest { strict_words_behind result.1.now ≡ rest_of (strict_words_behind rest.now) }
{
    match next_strict_word(rest) {
        None => (Ok(None), rest),
        Some((word, rest)) => match made(stream, word) {
            Ok(made) => (Ok(Some(made)), rest),
            Err(cause) => (Err(cause), rest),
        },
    }
}

/// The buffers of up to four streams.
fn configured(rest: &[u8]) -> Result<Four<Made>, Cause>
    ensures { result ≡ up_to_four made (strict_words_behind rest.now) }
{
    let (a, rest) = next_made(0, rest);
    let (b, rest) = next_made(1, rest);
    let (c, rest) = next_made(2, rest);
    let (d, rest) = next_made(3, rest);
    if next_strict_word(rest).is_some() {
        return Err(Cause::BadLine);
    }
    let (a, (b, (c, d))) = both(a, both(b, both(c, d)))?;
    Ok(Four { a, b, c, d })
}

/// A reply without further words.
fn plain_ok(rest: &[u8]) -> Result<Reply, Cause>
    ensures { result ≡ nothing Reply.Ok (strict_words_behind rest.now) }
{
    match next_strict_word(rest) {
        None => Ok(Reply::Ok),
        Some(_) => Err(Cause::BadLine),
    }
}

/// A reply with the number of the request.
fn submitted(rest: &[u8]) -> Result<Reply, Cause>
    ensures { result ≡ submission (strict_words_behind rest.now) }
{
    let Some(word) = one_strict_word(rest) else {
        return Err(Cause::BadLine);
    };
    Ok(Reply::Submitted(RequestId(numbered(b'r', word)?)))
}

/// What stands behind the `ok` of a command.
fn acceptance(word: Word, rest: &[u8]) -> Result<Reply, Cause>
    ensures { result ≡ acceptance word (strict_words_behind rest.now) }
{
    match word {
        Word::Configure => Ok(Reply::Configured(configured(rest)?)),
        Word::Once => submitted(rest),
        Word::Burst => submitted(rest),
        Word::Repeat => submitted(rest),
        Word::Stop => plain_ok(rest),
        Word::Wait => plain_ok(rest),
        Word::Await => plain_ok(rest),
        Word::Flush => plain_ok(rest),
        Word::Close => plain_ok(rest),
        Word::Disconnect => plain_ok(rest),
    }
}

/// The reply to a command.
#[tactic(auto, unfolding(crate::specs::Lines::reply_of))]
fn reply_of(word: Word, rest: &[u8]) -> Result<Reply, Cause>
    ensures { result ≡ reply_of word (strict_words_behind rest.now) }
{
    let Some((how, rest)) = next_strict_word(rest) else {
        return Err(Cause::BadLine);
    };
    if has_text(how, "ok") {
        acceptance(word, rest)
    } else if has_text(how, "refused") {
        refusal(rest)
    } else {
        Err(Cause::BadLine)
    }
}

/// An answered command, by its number, its word and its reply.
fn call_with(index: &[u8], word: &[u8], rest: &[u8]) -> Result<Entry, Cause>
    ensures { result ≡ call_with index.now (command_word word.now) (strict_words_behind rest.now) }
{
    let Some(word) = command_word(word) else {
        return Err(Cause::BadLine);
    };
    let (index, reply) = both(small(index), reply_of(word, rest))?;
    Ok(Entry::Call { index, word, reply })
}

/// `I W = ..` of a command that is answered.
#[tactic(auto, unfolding(crate::specs::Lines::call_of))]
pub fn call_of(rest: &[u8]) -> Result<Entry, Cause>
    ensures { result ≡ call_of (strict_words_behind rest.now) }
{
    let Some((index, rest)) = next_strict_word(rest) else {
        return Err(Cause::BadLine);
    };
    let Some((word, rest)) = next_strict_word(rest) else {
        return Err(Cause::BadLine);
    };
    let Some((sign, rest)) = next_strict_word(rest) else {
        return Err(Cause::BadLine);
    };
    if has_text(sign, "=") {
        call_with(index, word, rest)
    } else {
        Err(Cause::BadLine)
    }
}
