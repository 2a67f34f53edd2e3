//! Writing a film or a picture. All memory is taken before the first write, and one picture is there at a time.
ghost use Rattle.std.specs.Prelude.{◌≡◌, ◌++◌, IfOk, IsTrue, OnOk, OnErr, map};
ghost use Rattle.std.specs.List.{flat_map};
ghost use Rattle.call_parts.specs.Answers.{AnswersWithMemory, TellsBy};
ghost use Rattle.io_edge.specs.Faults.{Counts};
ghost use Rattle.io_edge.specs.States.{Breaks, Writes};
ghost use Rattle.video_call.specs.Files.{film_file, film_head, frame_head};
ghost use Rattle.video_call.specs.Chosen.{can_draw, chosen_file};
ghost use Rattle.video_call.specs.Drawing.{are_drawable, is_drawable};
ghost use Rattle.video_call.specs.Shows.{ShowsFile, bytes_of, film_text, frame_of, picture_text};
ghost use Rattle.call_parts.specs.Status.{status_number};

use crate::chosen::Chosen;
use crate::easel::Easel;
use crate::refusal::refuse_wanted;
use crate::wanted::Wanted;
use crate::{Shot, film_head, frame_head, make_body, picture_file};
use call_parts::{Status, answer};
use cam_types::{Format, NoMemory, StreamSpec};
use io_edge::{Failed, Sink, write_all};
use std::alloc::Global;

/// What a film is written with: its head, what stands before each picture, and what these are drawn with.
#[derive(Drop)]
struct Reel {
    head: Vec<u8>,
    frame_head: Vec<u8>,
    easel: Easel,
}

/// Takes all the memory that a film of the stream needs.
fn make_reel(alloc: Global, spec: StreamSpec) -> Result<Reel, NoMemory>
    ensures head { IfOk result (λ reel. reel.head.items ≡ film_head spec) }
    ensures frame_head { IfOk result (λ reel. reel.frame_head.items ≡ frame_head spec) }
{
    Ok(Reel {
        head: film_head(alloc, spec)?,
        frame_head: frame_head(alloc, spec)?,
        easel: Easel::new(alloc)?,
    })
}

/// Writes a head and behind it what follows.
fn write_both<K: Sink>(sink: &mut K, head: &[u8], body: &[u8]) -> Result<(), Failed>
    ensures written { OnOk result (Writes (K.state sink.old) (K.state sink.new) (head.now ++ body.now)) }
    ensures failed { OnErr result (Breaks (K.state sink.old) (K.state sink.new) (head.now ++ body.now)) }
    ensures faults { Counts result (K.state sink.old).faults (K.state sink.new).faults }
{
    write_all(sink, head)?;
    write_all(sink, body)
}

/// Draws a picture and writes it as one of a film.
fn write_frame<K: Sink>(
    easel: Easel,
    head: &[u8],
    format: Format,
    shot: Shot,
    sink: &mut K,
) -> Result<Easel, Failed>
    requires { IsTrue (is_drawable shot) }
    ensures written { OnOk result
        (Writes (K.state sink.old) (K.state sink.new) (frame_of head.now format shot)) }
    ensures failed { OnErr result
        (Breaks (K.state sink.old) (K.state sink.new) (frame_of head.now format shot)) }
    ensures faults { Counts result (K.state sink.old).faults (K.state sink.new).faults }
{
    let (mut picture, readout) = easel.draw(shot);
    make_body(format, picture.bytes_mut());
    let written = write_both(sink, head, picture.bytes());
    let easel = Easel::take_back(picture, readout);
    match written {
        Ok(()) => Ok(easel),
        Err(failed) => Err(failed),
    }
}

/// Draws pictures and writes them as those of a film, in their order.
fn write_frames<K: Sink>(
    easel: Easel,
    head: &[u8],
    format: Format,
    shots: &[Shot],
    sink: &mut K,
) -> Result<(), Failed>
    requires { IsTrue (are_drawable shots.now) }
    ensures written { OnOk result (Writes (K.state sink.old) (K.state sink.new)
        (flat_map (frame_of head.now format) shots.now)) }
    ensures failed { OnErr result (Breaks (K.state sink.old) (K.state sink.new)
        (flat_map (frame_of head.now format) shots.now)) }
    ensures faults { Counts result (K.state sink.old).faults (K.state sink.new).faults }
{
    let mut easel = easel;
    for shot in shots {
        easel = write_frame(easel, head, format, *shot, sink)?;
    }
    Ok(())
}

/// Writes a film's head, and behind it its pictures.
fn write_reel<K: Sink>(
    reel: Reel,
    format: Format,
    shots: &[Shot],
    sink: &mut K,
) -> Result<(), Failed>
    requires { IsTrue (are_drawable shots.now) }
    ensures written { OnOk result (Writes (K.state sink.old) (K.state sink.new)
        (reel.head.items ++ flat_map (frame_of reel.frame_head.items format) shots.now)) }
    ensures failed { OnErr result (Breaks (K.state sink.old) (K.state sink.new)
        (reel.head.items ++ flat_map (frame_of reel.frame_head.items format) shots.now)) }
    ensures faults { Counts result (K.state sink.old).faults (K.state sink.new).faults }
{
    let Reel {
        head,
        frame_head,
        easel,
    } = reel;
    write_all(sink, head.as_slice())?;
    write_frames(easel, frame_head.as_slice(), format, shots, sink)
}

/// Writes the film of pictures that all have this format and size.
fn write_film_of<K: Sink>(alloc: Global, spec: StreamSpec, shots: &[Shot], sink: &mut K) -> Status
    requires { IsTrue (are_drawable shots.now) }
    ensures { AnswersWithMemory 0 (film_file spec (map bytes_of shots.now)) (status_number result)
        (K.state sink.old) (K.state sink.new) }
{
    let reel = match make_reel(alloc, spec) {
        Ok(reel) => reel,
        Err(_) => return Status::NoMemory,
    };
    match write_reel(reel, spec.format, shots, sink) {
        Ok(()) => Status::Done,
        Err(_) => Status::SinkFailed,
    }
}

/// Writes the film of pictures, whose format and size are those of the first.
fn write_film<K: Sink>(alloc: Global, shots: &[Shot], sink: &mut K) -> Status
    requires { IsTrue (are_drawable shots.now) }
    ensures { AnswersWithMemory 0 (film_text shots.now) (status_number result) (K.state sink.old) (K.state sink.new) }
{
    match shots {
        [] => Status::Done,
        [first, ..] => write_film_of(alloc, first.spec, shots, sink),
    }
}

/// The file of a picture.
fn picture_text(alloc: Global, shot: Shot) -> Result<Vec<u8>, NoMemory>
    requires { IsTrue (is_drawable shot) }
    ensures { IfOk result (λ text. text.items ≡ picture_text shot) }
{
    let easel = Easel::new(alloc)?;
    let (mut picture, readout) = easel.draw(shot);
    let text = picture_file(alloc, shot.spec, picture.bytes_mut());
    let _easel = Easel::take_back(picture, readout);
    text
}

/// Writes a picture.
fn write_picture<K: Sink>(alloc: Global, shot: Shot, sink: &mut K) -> Status
    requires { IsTrue (is_drawable shot) }
    ensures { AnswersWithMemory 0 (picture_text shot) (status_number result) (K.state sink.old) (K.state sink.new) }
{
    match picture_text(alloc, shot) {
        Ok(text) => answer(sink, text.as_slice(), Status::Done),
        Err(_) => Status::NoMemory,
    }
}

/// Writes what there is of what was wanted, or the line that refuses it.
pub(crate) fn write_chosen<K: Sink>(
    alloc: Global,
    wanted: Wanted,
    chosen: Chosen,
    sink: &mut K,
) -> Status
    requires { IsTrue (can_draw chosen) }
    ensures { TellsBy (ShowsFile wanted (chosen_file chosen)) (status_number result) (K.state sink.old) (K.state sink.new) }
{
    match chosen {
        Chosen::Film(shots) => write_film(alloc, shots.as_slice(), sink),
        Chosen::Picture(shot) => write_picture(alloc, shot, sink),
        Chosen::Nothing(cause) => refuse_wanted(alloc, wanted, cause, sink),
    }
}
