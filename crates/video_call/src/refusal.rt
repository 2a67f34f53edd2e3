//! The line that refuses a film or a picture.
ghost use Rattle.std.specs.Prelude.{◌≡◌, IfOk};
ghost use Rattle.call_parts.specs.Answers.{AnswersWithMemory};
ghost use Rattle.video_call.specs.Shows.{refusal_of};
ghost use Rattle.call_parts.specs.Status.{status_number};

use crate::NoFilm;
use crate::wanted::Wanted;
use call_parts::{Status, answer_made};
use cam_types::NoMemory;
use io_edge::Sink;
use std::alloc::Global;

/// The line that refuses what is wanted.
fn refusal_text(alloc: Global, wanted: Wanted, cause: NoFilm) -> Result<Vec<u8>, NoMemory>
    ensures { IfOk result (λ text. text.items ≡ refusal_of wanted cause) }
{
    let number = cause.number();
    let mut out = String::new(alloc);
    match wanted {
        Wanted::Film { stream } => {
            let place = stream.0;
            writeln!(&mut out, "refused video {place} {number}")?;
        }
        Wanted::Picture { frame, stream } => {
            let shown = frame.0;
            let place = stream.0;
            writeln!(&mut out, "refused picture {shown} {place} {number}")?;
        }
    }
    Ok(out.into_bytes())
}

/// Refuses what is wanted.
pub(crate) fn refuse_wanted<K: Sink>(
    alloc: Global,
    wanted: Wanted,
    cause: NoFilm,
    sink: &mut K,
) -> Status
    ensures { AnswersWithMemory 1 (refusal_of wanted cause) (status_number result) (K.state sink.old) (K.state sink.new) }
{
    answer_made(refusal_text(alloc, wanted, cause), Status::Refused, sink)
}
