//! The text of a whole log.

ghost use Rattle.std.specs.Prelude.{◌≡◌, ◌++◌, ◌&&◌, true, OnOk, IfOk, IsTrue, string_bytes};
ghost use Rattle.std.specs.List.{flat_map, list_all};
ghost use Rattle.text_parts.specs.Lines.{line_text};
ghost use Rattle.hal_model.specs.Fits.{fits, is_typed, is_valid, is_well_made};
ghost use Rattle.hal_model.specs.Spelling.{event_line, first_words, text_of};

use crate::HalEvent;
use crate::written_event::write_event;
use cam_types::NoMemory;
use std::alloc::Global;

/// Writes the first line, with the device's partial result count.
pub fn write_first(out: &mut String, parts: u32) -> Result<(), NoMemory>
    ensures { OnOk result (string_bytes out.new ≡ string_bytes out.old ++ line_text (first_words parts)) }
{
    writeln!(out, "hal 1 {parts}")
}

/// Writes the lines of events.
fn write_events(out: &mut String, events: &[HalEvent]) -> Result<(), NoMemory>
    requires { IsTrue (list_all is_well_made events.now) }
    ensures text { OnOk result (string_bytes out.new ≡ string_bytes out.old ++ flat_map event_line events.now) }
    ensures typed { OnOk result (list_all is_typed events.now ≡ true) }
{
    for event in events {
        write_event(out, event)?;
    }
    Ok(())
}

/// The text of a log, as `docs/FORMATS.md` has it: the first line, and a line for each event, single spaces and no
/// comments.
#[tactic(auto, unfolding(crate::specs::Spelling::text_of))]
pub fn print(alloc: Global, parts: u32, events: &[HalEvent]) -> Result<Vec<u8>, NoMemory>
    requires { IsTrue (is_valid parts events.now) }
    ensures text { IfOk result (λ text. text.items ≡ text_of parts events.now) }
    // Its numbers are within their types, so that what is printed can be read again.
    ensures fits { IfOk result (λ text. IsTrue (fits parts events.now)) }
{
    let mut out = String::new(alloc);
    write_first(&mut out, parts)?;
    write_events(&mut out, events)?;
    Ok(out.into_bytes())
}
