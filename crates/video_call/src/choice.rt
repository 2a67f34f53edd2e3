//! Whether a stream has a film, and a frame a picture, in a trace; and if not, why.
ghost use Rattle.std.specs.Prelude.{◌≡◌, ◌==◌, IfOk, MatchResult, Result, find, length, nat_lt, option_copied, reverse};
ghost use Rattle.std.specs.List.{list_all};
ghost use Rattle.trace_model.specs.Configuration.{streams_of};
ghost use Rattle.video_call.specs.Choice.{
  alike_or_none,
  cause_of,
  film_or_none,
  has_stream,
  is_alike,
  is_same_format,
  makes_stream,
  number_of,
  shot_or_none,
};

use crate::film::film_of;
use crate::shot::Shot;
use cam_types::{Command, Format, FrameNo, NoMemory, Reply, Script, StreamIx, StreamSpec};
use judge_entries::command::command_at;
use judge_filters::frame::{has_target, is_sent};
use std::alloc::Global;
use trace_model::Entry;

/// Why a stream has no film, or a frame no picture.
#[derive(Clone, Copy, Debug, PartialEq, Eq)]
pub enum NoFilm {
    /// No accepted configuration has the stream.
    NoStream,
    /// Nothing was sent under the frame's number.
    NotSent,
    /// The frame was sent without a buffer for the stream.
    NotTarget,
    /// The frame's buffer for the stream came back in error.
    Failed,
    /// No good buffer of the stream came back.
    Empty,
    /// The good buffers aren't all of one format and size.
    Mixed,
}

impl NoFilm {
    /// The number by which it is told.
    pub fn number(self) -> u8
        ensures { result ≡ number_of self }
    {
        match self {
            NoFilm::NoStream => 71,
            NoFilm::NotSent => 72,
            NoFilm::NotTarget => 73,
            NoFilm::Failed => 74,
            NoFilm::Empty => 75,
            NoFilm::Mixed => 76,
        }
    }
}

/// Whether the command configures the stream.
fn asks_for_stream(command: Option<&Command>, stream: StreamIx) -> bool
    ensures { result ≡ nat_lt stream.0 (length (streams_of (option_copied command.entry))) }
{
    match command {
        Some(Command::Configure(specs)) => u32::from(stream.0) < specs.len(),
        _ => false,
    }
}

/// Whether the entry accepts a configuration that has the stream.
fn makes_stream(script: &Script, entry: &Entry, stream: StreamIx) -> bool
    ensures { result ≡ makes_stream script.now stream.0 entry.now }
{
    match entry {
        Entry::Call {
            index,
            reply: Reply::Configured(_),
            ..
        } => asks_for_stream(command_at(script, *index), stream),
        _ => false,
    }
}

/// Whether some accepted configuration has the stream.
fn has_stream(script: &Script, entries: &[Entry], stream: StreamIx) -> bool
    ensures { result ≡ has_stream script.now stream.0 (reverse entries.now) }
{
    entries
        .iter()
        .rev()
        .any(|entry| makes_stream(script, entry, stream))
}

/// Whether two formats are the same.
fn is_same_format(a: Format, b: Format) -> bool
    ensures { result ≡ is_same_format a b }
{
    match (a, b) {
        (Format::Raw16, Format::Raw16) => true,
        (Format::Yuv, Format::Yuv) => true,
        (Format::Other(one), Format::Other(other)) => one == other,
        _ => false,
    }
}

/// Whether two streams have one format and size.
fn is_alike(a: StreamSpec, b: StreamSpec) -> bool
    ensures { result ≡ is_alike a b }
{
    is_same_format(a.format, b.format) && (a.width == b.width && a.height == b.height)
}

/// Whether all pictures have this format and size.
fn are_alike(spec: StreamSpec, shots: &[Shot]) -> bool
    ensures { result ≡ list_all (λ shot. is_alike spec shot.spec) shots.now }
{
    shots.iter().all(|shot| is_alike(spec, shot.spec))
}

/// The pictures, where there are some and all of one format and size.
fn alike_or_none(shots: Vec<Shot>) -> Result<Vec<Shot>, NoFilm>
    ensures { MatchResult result (λ film. alike_or_none shots.items ≡ Result.Ok film.items)
        (λ cause. alike_or_none shots.items ≡ Result.Err cause) }
{
    let spec = match shots.as_slice() {
        [] => return Err(NoFilm::Empty),
        [first, ..] => first.spec,
    };
    if are_alike(spec, shots.as_slice()) {
        Ok(shots)
    } else {
        Err(NoFilm::Mixed)
    }
}

/// The film of the stream in a trace, whose entries are given, the oldest first: the pictures of its good buffers in
/// the order of delivery. An error within says why there is none.
pub fn film_or_none(
    alloc: Global,
    script: &Script,
    entries: &[Entry],
    stream: StreamIx,
) -> Result<Result<Vec<Shot>, NoFilm>, NoMemory>
    ensures { IfOk result (λ choice. MatchResult choice
        (λ film. film_or_none script.now stream.0 (reverse entries.now) ≡ Result.Ok film.items)
        (λ cause. film_or_none script.now stream.0 (reverse entries.now) ≡ Result.Err cause)) }
{
    if !has_stream(script, entries, stream) {
        return Ok(Err(NoFilm::NoStream));
    }
    let shots = film_of(alloc, script, entries, stream)?;
    Ok(alike_or_none(shots))
}

/// Why the frame has no picture for the stream.
fn cause_of(script: &Script, entries: &[Entry], frame: FrameNo, stream: StreamIx) -> NoFilm
    ensures { result ≡ cause_of script.now frame.0 stream.0 (reverse entries.now) }
{
    if !has_stream(script, entries, stream) {
        NoFilm::NoStream
    } else if !is_sent(entries, frame) {
        NoFilm::NotSent
    } else if !has_target(entries, frame, stream) {
        NoFilm::NotTarget
    } else {
        NoFilm::Failed
    }
}

/// The frame's picture among others.
fn find_shot(shots: &[Shot], frame: FrameNo) -> Option<&Shot>
    ensures { option_copied result ≡ find (λ shot. shot.frame.0 == frame.0) shots.now }
{
    shots.iter().find(|shot| shot.frame.0 == frame.0)
}

/// The picture that a good buffer of the frame brought for the stream in a trace, whose entries are given, the oldest
/// first. An error within says why there is none.
pub fn shot_or_none(
    alloc: Global,
    script: &Script,
    entries: &[Entry],
    frame: FrameNo,
    stream: StreamIx,
) -> Result<Result<Shot, NoFilm>, NoMemory>
    ensures { IfOk result (λ choice. choice ≡ shot_or_none script.now frame.0 stream.0 (reverse entries.now)) }
{
    let shots = film_of(alloc, script, entries, stream)?;
    match find_shot(shots.as_slice(), frame) {
        Some(shot) => Ok(Ok(*shot)),
        None => Ok(Err(cause_of(script, entries, frame, stream))),
    }
}
