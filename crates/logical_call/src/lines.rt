//! The lines of a logical camera's run.
ghost use Rattle.std.specs.Prelude.{◌≡◌, ◌++◌, IfOk, IfSome, IsTrue, OnOk, option_to_list};
ghost use Rattle.std.specs.List.{flat_map};
ghost use Rattle.trace_model.specs.Printable.{is_printable};
ghost use Rattle.logical_call.specs.Lines.{camera_line, camera_text, pair_line};

use crate::{PairEnd, Paired};
use cam_types::NoMemory;
use std::alloc::Global;
use trace_model::Entry;
use trace_text::Printer;

/// The camera's number, and a space.
fn camera_text(alloc: Global, camera: u8) -> Result<Vec<u8>, NoMemory>
    ensures { IfOk result (λ text. text.items ≡ camera_text camera) }
{
    let mut out = String::new(alloc);
    write!(&mut out, "{camera} ")?;
    Ok(out.into_bytes())
}

/// Writes what a camera did, if it has an entry.
pub fn put_entry(
    alloc: Global,
    out: &mut Vec<u8>,
    printer: &mut Printer,
    camera: u8,
    entry: Option<Entry>,
) -> Result<(), NoMemory>
    requires { IfSome entry (λ e. IsTrue (is_printable e)) }
    ensures { OnOk result (out.new.items ≡ out.old.items ++ flat_map (camera_line camera) (option_to_list entry)) }
{
    if let Some(entry) = entry {
        let front = camera_text(alloc, camera)?;
        out.extend_from_slice(front.as_slice())?;
        out.extend_from_slice(printer.line(entry))?;
    }
    Ok(())
}

/// The line of a frame that has ended in both cameras.
#[tactic(auto, unfolding(crate::specs::Lines::pair_line))]
fn pair_line(alloc: Global, paired: Paired) -> Result<Vec<u8>, NoMemory>
    ensures { IfOk result (λ text. text.items ≡ pair_line paired) }
{
    let number = paired.frame.0;
    let mut out = String::new(alloc);
    match paired.end {
        PairEnd::Ok => writeln!(&mut out, "logical {number} ok")?,
        PairEnd::Error => writeln!(&mut out, "logical {number} error")?,
        PairEnd::Drop => writeln!(&mut out, "logical {number} drop")?,
    }
    Ok(out.into_bytes())
}

/// Writes how a frame ended, if one has ended in both cameras.
pub fn put_pair(alloc: Global, out: &mut Vec<u8>, paired: Option<Paired>) -> Result<(), NoMemory>
    ensures { OnOk result (out.new.items ≡ out.old.items ++ flat_map pair_line (option_to_list paired)) }
{
    if let Some(paired) = paired {
        let line = pair_line(alloc, paired)?;
        out.extend_from_slice(line.as_slice())?;
    }
    Ok(())
}
