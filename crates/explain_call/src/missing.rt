//! All that a run lacks, in words.
ghost use Rattle.std.specs.Prelude.{◌≡◌, ◌+◌, ◌≤◌, ◌++◌, IsTrue, OnOk, length};
ghost use Rattle.std.specs.List.{list_all};
ghost use Rattle.explain_call.specs.Missing.{missing_text};
ghost use Rattle.trace_model.specs.Printable.{is_printable};

use crate::buffers::out_of_pool;
use crate::commands::uncalled;
use crate::fences::Unsignalled;
use crate::frames::open_frames;
use crate::queue::waiting;
use cam_types::{NoMemory, Script};
use std::alloc::Global;
use trace_model::Entry;
use trace_text::Printer;
use wrong_words::{LINE_LIMIT, put_headed, put_lines};

/// Writes all that a run lacks for being complete, each part behind its heading, where there is any. The line of its
/// first entry has the number.
#[tactic(auto, unfolding(crate::specs::Missing::missing_text, crate::specs::Missing::uncalled_part, crate::specs::Missing::open_part, crate::specs::Missing::waiting_part, crate::specs::Missing::buffer_part, crate::specs::Missing::fence_part))]
pub fn put_missing(
    text: &mut Vec<u8>,
    alloc: Global,
    printer: &mut Printer,
    script: &Script,
    entries: &[Entry],
    number: u64,
) -> Result<(), NoMemory>
    requires printable { IsTrue (list_all is_printable entries.now) }
    requires numbers { number + length entries.now ≤ LINE_LIMIT }
    ensures { OnOk result (text.new.items ≡ text.old.items ++ missing_text script.now number entries.now) }
{
    let commands = uncalled(alloc, script, entries)?;
    put_headed(text, b"Commands without a call:\n", commands.as_slice())?;
    let frames = open_frames(alloc, printer, entries, number)?;
    put_headed(
        text,
        b"Open frames, each with what it lacks:\n",
        frames.as_slice(),
    )?;
    let items = waiting(alloc, script, entries)?;
    put_headed(text, b"Items in the queue:\n", items.as_slice())?;
    let buffers = out_of_pool(alloc, entries)?;
    put_headed(
        text,
        b"Buffers that aren't in the pool:\n",
        buffers.as_slice(),
    )?;
    let mut fences = Vec::new(alloc);
    let choice = Unsignalled { entries };
    put_lines(&mut fences, alloc, printer, &choice, number, entries)?;
    put_headed(text, b"Fences that aren't signalled:\n", fences.as_slice())
}
