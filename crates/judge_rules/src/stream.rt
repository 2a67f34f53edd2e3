//! The streams that an item asks pictures of.
ghost use Rattle.std.specs.Prelude.{◌≡◌, ◌-◌, ◌<◌, ◌||◌, ◌++◌, ◌∷◌, [], List, Some, IfSome, not, reverse, find, option_to_list};
ghost use Rattle.std.specs.List.{list_all, range_with_len};
ghost use Rattle.cam_types.specs.Four.{four_list};
ghost use Rattle.trace_model.specs.Send.{are_streams, has_room};
ghost use Rattle.trace_model.specs.declared.entry.Sent.{Sent as SomeSent};
ghost use Rattle.judge_rules.specs.Asked.{are_left, asks, left_from};

use crate::room::is_room_left;
use cam_types::{Four, STREAM_LIMIT, Script, StreamIx, Targets};
use trace_model::{Entry, Sent};

/// The number past the last stream that an item can ask for.
const STREAMS_END: u8 = STREAM_LIMIT as u8;

/// Whether a picture of the stream is asked for.
pub fn asks_for(asked: Targets, stream: u8) -> bool
    ensures { result ≡ asks asked stream }
{
    let count = asked.count as usize;
    asked
        .list
        .iter()
        .take(count)
        .any(|target| *target == stream)
}

/// Whether the stream isn't asked for, or the device takes a further buffer of it.
fn has_room_where_asked(script: &Script, entries: &[Entry], asked: Targets, stream: u8) -> bool
    ensures { result ≡ (not (asks asked stream) || has_room script.now (reverse entries.now) stream) }
{
    !asks_for(asked, stream) || is_room_left(script, entries, StreamIx(stream))
}

fn have_room_where_asked(script: &Script, entries: &[Entry], asked: Targets) -> bool
    ensures { result ≡
        list_all (λ s. not (asks asked s) || has_room script.now (reverse entries.now) s) (range_with_len 0 4) }
{
    (0..STREAMS_END).all(|stream| has_room_where_asked(script, entries, asked, stream))
}

/// Whether the device takes a further buffer of each stream that is asked for.
#[tactic(auto, using(crate::proofs::StreamLemmas::all_asked))]
pub fn has_room(script: &Script, entries: &[Entry], asked: Targets) -> bool
    ensures { result ≡ list_all (has_room script.now (reverse entries.now)) (left_from (asks asked) 0) }
{
    have_room_where_asked(script, entries, asked)
}

/// The first stream that is asked for, from the stream on.
#[tactic(auto, using(crate::proofs::StreamLemmas::found_below))]
fn first_asked(asked: Targets, from: u8) -> Option<u8>
    ensures value { result ≡ find (asks asked) (range_with_len from (4 - from)) }
    ensures below { IfSome result (λ s. s < 4) }
{
    (from..STREAMS_END).find(|stream| asks_for(asked, *stream))
}

/// The stream after the target's, where the target's is the first that is asked for from the stream on.
#[tactic(auto, using(crate::proofs::StreamLemmas::left_none))]
fn after_target(target: Sent, asked: Targets, from: u8) -> Option<u8>
    ensures { (rest : List SomeSent) →
        are_left (target ∷ rest) (asks asked) (Some from) ≡ are_left rest (asks asked) result }
{
    match first_asked(asked, from) {
        Some(stream) => {
            if target.stream.0 == stream {
                Some(stream + 1)
            } else {
                None
            }
        }
        None => None,
    }
}

/// The stream from which on what is asked for is left to the targets after this one, if it fits.
fn after(target: Option<Sent>, asked: Targets, from: Option<u8>) -> Option<u8>
    ensures { (rest : List SomeSent) →
        are_left (option_to_list target ++ rest) (asks asked) from ≡ are_left rest (asks asked) result }
{
    match target {
        Some(target) => match from {
            Some(from) => after_target(target, asked, from),
            None => None,
        },
        None => from,
    }
}

/// Whether no stream is asked for from the stream on.
#[tactic(auto, using(crate::proofs::StreamLemmas::none_left))]
fn is_none_left(asked: Targets, from: Option<u8>) -> bool
    ensures { result ≡ are_left [] (asks asked) from }
{
    match from {
        Some(from) => first_asked(asked, from).is_none(),
        None => false,
    }
}

/// Whether the targets are for the streams that are asked for, in ascending order.
pub fn are_streams(targets: Four<Sent>, asked: Targets) -> bool
    ensures { result ≡ are_streams (four_list targets) (left_from (asks asked) 0) }
{
    let first = after(targets.a, asked, Some(0));
    let second = after(targets.b, asked, first);
    let third = after(targets.c, asked, second);
    let last = after(targets.d, asked, third);
    is_none_left(asked, last)
}
