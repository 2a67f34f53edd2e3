//! The log as a whole.
ghost use Rattle.std.specs.Prelude.{◌≡◌, ◌++◌, ◌∷◌, [], List, IfOk, OnOk, IsTrue, reverse};
ghost use Rattle.std.specs.List.{list_all};
ghost use Rattle.hal_call.specs.Fences.{is_fitting};
ghost use Rattle.hal_call.specs.Standing.{standing_of};
ghost use Rattle.hal_model.specs.Hal.{events, whole_log};
ghost use Rattle.trace_model.specs.declared.entry.Entry.{Entry as SomeEntry};

use crate::callback::add_callback;
use crate::called::{add_begun, add_called};
use crate::event::append;
use crate::request::add_request;
use crate::standing::Standing;
use cam_types::{Listing, NoMemory, Script};
use hal_model::{EventList, HalEvent};
use std::alloc::Global;
use trace_model::Entry;

/// What passes before the first entry: the device is opened and initialized.
fn opened(alloc: Global, script: &Script) -> Result<EventList, NoMemory>
    ensures { IfOk result (λ log. log ≡ reverse (whole_log script.now [])) }
{
    let mut log = Listing::new(alloc);
    append(&mut log, HalEvent::OpenBegin)?;
    append(&mut log, HalEvent::OpenOk)?;
    append(&mut log, HalEvent::InitBegin)?;
    append(&mut log, HalEvent::InitOk)?;
    Ok(log)
}

/// Appends the events of an entry; `standing` is what stands before it.
fn add_events(
    alloc: Global,
    log: &mut EventList,
    script: &Script,
    standing: Standing,
    entry: &Entry,
) -> Result<(), NoMemory>
    requires { IsTrue (is_fitting entry.now) }
    ensures { (past : List SomeEntry) → standing ≡ standing_of past →
        OnOk result (log.new ≡ log.old ++ reverse (events script.now past entry.now)) }
{
    match entry {
        Entry::Begin { word } => add_begun(log, standing, *word),
        Entry::Call { index, word, reply } => {
            add_called(alloc, log, script, standing, *index, *word, reply)
        }
        Entry::Send {
            frame,
            same,
            targets,
            ..
        } => add_request(alloc, log, *frame, *same, targets),
        _ => add_callback(alloc, log, entry),
    }
}

/// The hal log of a trace of the script, with the oldest event first.
pub fn hal_log(alloc: Global, script: &Script, entries: &[Entry]) -> Result<EventList, NoMemory>
    requires fences { IsTrue (list_all is_fitting entries.now) }
    ensures { IfOk result (λ log. log ≡ reverse (whole_log script.now (reverse entries.now))) }
{
    let mut log = opened(alloc, script)?;
    let mut standing = Standing::at_first();
    for entry in entries {
        add_events(alloc, &mut log, script, standing, entry)?;
        standing = standing.behind(entry);
    }
    Ok(log)
}
