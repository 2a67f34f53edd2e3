//! The film of a stream, taken from a trace in one pass.
ghost use Rattle.std.specs.Prelude.{◌≡◌, ◌++◌, IfOk, OnOk, option_to_list, reverse};
ghost use Rattle.video_call.specs.Film.{film};

use crate::calls::keep_call;
use crate::shot::{Shot, shot_with};
use cam_types::{NoMemory, Script, StreamIx};
use std::alloc::Global;
use trace_model::Entry;

/// Puts a picture behind the others, if there is one.
fn put_shot(shots: &mut Vec<Shot>, shot: Option<Shot>) -> Result<(), NoMemory>
    ensures { OnOk result (shots.new.items ≡ shots.old.items ++ option_to_list shot) }
{
    if let Some(shot) = shot {
        shots.push(shot)?;
    }
    Ok(())
}

/// The pictures of the stream's good buffers in a trace, in the order of delivery. The entries are those of the trace,
/// the oldest first. Each good buffer costs a look back to where its frame was sent; the memory is that of the film's
/// list and of the calls.
pub fn film_of(
    alloc: Global,
    script: &Script,
    entries: &[Entry],
    stream: StreamIx,
) -> Result<Vec<Shot>, NoMemory>
    ensures { IfOk result (λ shots. shots.items ≡ film script.now stream.0 (reverse entries.now)) }
{
    let mut calls = Vec::new(alloc);
    let mut shots = Vec::new(alloc);
    for (place, entry) in entries.iter().enumerate() {
        let shot = shot_with(script, &entries[..place], calls.as_slice(), entry, stream);
        put_shot(&mut shots, shot)?;
        keep_call(&mut calls, entry)?;
    }
    Ok(shots)
}
