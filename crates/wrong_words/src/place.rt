//! Which kind the places of a line ask for.
ghost use Rattle.std.specs.Prelude.{◌≡◌, bytes_eq, if◌then◌else◌};
ghost use Rattle.wrong_words.specs.WordPlaces.{buffer_kind, by_how, by_place, call_kind, is_item_word, script_kind, trace_kind};

use crate::word_kind::WordKind;

/// The kinds of the first three places, and of all behind them.
fn by_place(
    first: WordKind,
    second: WordKind,
    third: WordKind,
    rest: WordKind,
    place: usize,
) -> WordKind
    ensures { result ≡ by_place first second third rest place }
{
    match place {
        1 => first,
        2 => second,
        3 => third,
        _ => rest,
    }
}

/// Whether items stand behind the word.
fn is_item_word(first: &[u8]) -> bool
    ensures { result ≡ is_item_word first.now }
{
    first == b"once".as_slice() || first == b"burst".as_slice() || first == b"repeat".as_slice()
}

/// The kind at a place behind the first word of a script's line, from 1 on.
#[tactic(auto, unfolding(crate::specs::WordPlaces::script_kind))]
pub fn script_kind(first: &[u8], place: usize) -> WordKind
    ensures { result ≡ script_kind first.now place }
{
    if first == b"fault".as_slice() {
        by_place(
            WordKind::Any,
            WordKind::Number,
            WordKind::Byte,
            WordKind::Byte,
            place,
        )
    } else if first == b"pick".as_slice() {
        WordKind::Number
    } else if first == b"device".as_slice() {
        WordKind::ProfileNumber
    } else if first == b"configure".as_slice() {
        WordKind::Spec
    } else if is_item_word(first) {
        WordKind::Item
    } else if first == b"await".as_slice() {
        WordKind::Count
    } else {
        WordKind::Any
    }
}

/// The kinds of the word at place 4, which says how a call or a buffer ended, and of what stands behind it: one kind
/// where it isn't the long word, else that of place 5 and that of all behind it.
fn by_how(
    how: &[u8],
    long: &[u8],
    short: WordKind,
    next: WordKind,
    rest: WordKind,
    place: usize,
) -> WordKind
    ensures { result ≡ by_how how.now long.now short next rest place }
{
    match place {
        4 => WordKind::Any,
        _ if how != long => short,
        5 => next,
        _ => rest,
    }
}

/// The kind behind the `ok` or `refused` of a call.
fn call_kind(how: &[u8], place: usize) -> WordKind
    ensures { result ≡ call_kind how.now place }
{
    use WordKind::{Byte, Number, Reply};
    by_how(how, b"refused", Reply, Byte, Number, place)
}

/// The kind behind the `ok` or `error` of a buffer.
fn buffer_kind(how: &[u8], place: usize) -> WordKind
    ensures { result ≡ buffer_kind how.now place }
{
    use WordKind::{Any, Digest, FenceOrNone};
    by_how(how, b"ok", FenceOrNone, Any, Digest, place)
}

/// The kind where the first word is this one, else the other.
fn kind_where(first: &[u8], word: &[u8], kind: WordKind, other: WordKind) -> WordKind
    ensures { result ≡ (if bytes_eq first.now word.now then kind else other) }
{
    if first == word { kind } else { other }
}

/// The kind at a place behind the first word of a trace's line, from 1 on, by the first word and the one at place 4.
#[tactic(auto, unfolding(crate::specs::WordPlaces::trace_kind))]
pub fn trace_kind(first: &[u8], how: &[u8], place: usize) -> WordKind
    ensures { result ≡ trace_kind first.now how.now place }
{
    use WordKind::{
        Any, Buffer, Byte, Bytes, DeviceFence, Digest, Fence, ItemName, Number, PartNumber,
        ProfileNumber, Target, Time,
    };
    let signal = by_place(Fence, Any, Any, Any, place);
    let kind = kind_where(first, b"signal", signal, Any);
    let release = by_place(Buffer, Fence, Any, Any, place);
    let kind = kind_where(first, b"release", release, kind);
    let error = by_place(Any, Number, Byte, Any, place);
    let kind = kind_where(first, b"error", error, kind);
    let filled = by_place(DeviceFence, Digest, Any, Any, place);
    let kind = kind_where(first, b"filled", filled, kind);
    let early = by_place(Number, Byte, Buffer, DeviceFence, place);
    let kind = kind_where(first, b"early", early, kind);
    let buffer = by_place(Number, Byte, Buffer, buffer_kind(how, place), place);
    let kind = kind_where(first, b"buffer", buffer, kind);
    let partial = by_place(Number, PartNumber, Bytes, Any, place);
    let kind = kind_where(first, b"partial", partial, kind);
    let shutter = by_place(Number, Time, Any, Any, place);
    let kind = kind_where(first, b"shutter", shutter, kind);
    let dropped = by_place(Number, ItemName, Any, Any, place);
    let kind = kind_where(first, b"drop", dropped, kind);
    let send = by_place(Number, ItemName, Any, Target, place);
    let kind = kind_where(first, b"send", send, kind);
    let call = by_place(Number, Any, Any, call_kind(how, place), place);
    let kind = kind_where(first, b"call", call, kind);
    let trace = by_place(Any, ProfileNumber, ProfileNumber, ProfileNumber, place);
    kind_where(first, b"trace", trace, kind)
}
