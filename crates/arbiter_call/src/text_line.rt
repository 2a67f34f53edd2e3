//! What a line means by its words.
ghost use Rattle.std.specs.Prelude.{◌≡◌, ◌≤◌, IsTrue, IfOk};
ghost use Rattle.text_parts.specs.Words.{loose_words};
ghost use Rattle.arbiter_call.specs.Ranges.{is_client, is_count, is_line, is_session};
ghost use Rattle.arbiter_call.specs.Lines.{camera_of, client_line, session_of};

use crate::{ArbiterLine, CameraId, ClientId, Session};
use call_parts::{number_from_to, one_number_from_to, two_numbers};
use text_parts::{Cause, next_loose_word};

/// `C P N`, of a client, where there are so many cameras.
#[tactic(auto, unfolding(crate::specs::Lines::camera_of))]
fn camera_of(cameras: u32, client: u32, words: &[u8]) -> Result<Session, Cause>
    requires count { IsTrue (is_count cameras) }
    requires client { client ≤ 15 }
    ensures value { result ≡ camera_of cameras client (loose_words words.now) }
    ensures valid { IfOk result (λ session. IsTrue (is_session cameras session)) }
{
    let Some((word, rest)) = next_loose_word(words) else {
        return Err(Cause::Missing);
    };
    let camera = number_from_to(word, 0, u64::from(cameras - 1))?;
    let (priority, shots) = two_numbers(rest, 1_000, 100)?;
    Ok(Session {
        client: ClientId(client),
        camera: CameraId(camera),
        priority,
        shots,
    })
}

/// `K C P N`, where there are so many cameras.
#[tactic(auto, unfolding(crate::specs::Lines::session_of))]
fn session_of(cameras: u32, words: &[u8]) -> Result<Session, Cause>
    requires { IsTrue (is_count cameras) }
    ensures value { result ≡ session_of cameras (loose_words words.now) }
    ensures valid { IfOk result (λ session. IsTrue (is_session cameras session)) }
{
    let Some((word, rest)) = next_loose_word(words) else {
        return Err(Cause::Missing);
    };
    let client = number_from_to(word, 0, 15)?;
    camera_of(cameras, client, rest)
}

/// What a line asks that is `connect K C P N` or `leave K`.
pub fn client_line(cameras: u32, word: &[u8], rest: &[u8]) -> Result<ArbiterLine, Cause>
    requires { IsTrue (is_count cameras) }
    ensures value { result ≡ client_line cameras word.now (loose_words rest.now) }
    ensures valid { IfOk result (λ line. IsTrue (is_line cameras line)) }
{
    if word == b"connect".as_slice() {
        Ok(ArbiterLine::Connect(session_of(cameras, rest)?))
    } else if word == b"leave".as_slice() {
        Ok(ArbiterLine::Leave(ClientId(one_number_from_to(rest, 0, 15)?)))
    } else {
        Err(Cause::UnknownWord)
    }
}
