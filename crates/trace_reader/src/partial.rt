//! The lines of partial results.

ghost use Rattle.std.specs.Prelude.{◌≡◌};
ghost use Rattle.text_parts.specs.Words.{strict_words_behind};
ghost use Rattle.trace_reader.specs.Lines.{metadata, partial_of};
ghost use Rattle.trace_reader.specs.Reader.{Gives};

use crate::cause::{Cause, LineRefused};
use crate::digest::hex_bytes;
use crate::number::small;
use crate::word::part_number;
use cam_types::{FrameNo, PartialResult};
use metadata::{Packed, PackedRefused, part_of};
use std::alloc::Global;
use text_parts::three_strict_words;
use trace_model::Entry;

/// The part with the number that bytes are the packed form of.
fn metadata(alloc: Global, number: u8, bytes: &[u8]) -> Result<PartialResult, LineRefused>
    ensures { Gives result (metadata number bytes.now) }
{
    match Packed::read(alloc, bytes) {
        Ok(packed) => part_of(number, &packed).ok_or(LineRefused::Bad(Cause::BadMetadata)),
        Err(PackedRefused::NoMemory) => Err(LineRefused::NoMemory),
        Err(_) => Err(LineRefused::Bad(Cause::BadMetadata)),
    }
}

/// `N K HEX` of a partial result.
#[tactic(auto, unfolding(crate::specs::Lines::partial_of))]
pub fn partial_of(alloc: Global, rest: &[u8]) -> Result<Entry, LineRefused>
    ensures { Gives result (partial_of (strict_words_behind rest.now)) }
{
    let Some((frame, number, hex)) = three_strict_words(rest) else {
        return Err(LineRefused::Bad(Cause::BadLine));
    };
    let frame = FrameNo(small(frame)?);
    let number = part_number(number)?;
    let bytes = hex_bytes(alloc, hex)?;
    let part = metadata(alloc, number, bytes.as_slice())?;
    Ok(Entry::Partial {
        frame,
        number,
        part,
    })
}
