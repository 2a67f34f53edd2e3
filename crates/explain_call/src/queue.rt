//! The items that wait in the queue.
ghost use Rattle.std.specs.Prelude.{◌≡◌, ◌<◌, ◌^◌, ◌++◌, IfOk, OnOk, filter, length, not, reverse};
ghost use Rattle.std.specs.List.{flat_map};
ghost use Rattle.trace_model.specs.Queue.{is_taken, named, puts};
ghost use Rattle.explain_call.specs.Missing.{item_line, waiting_line, waiting_lines};

use cam_types::{Item, NoMemory, Reply, RequestId, Script};
use judge_entries::command::{command_at, queued_items};
use judge_filters::queue::is_taken;
use std::alloc::Global;
use trace_model::Entry;
use wrong_words::put_number;

/// Writes the line of an item.
fn put_item(
    text: &mut Vec<u8>,
    alloc: Global,
    request: RequestId,
    place: u32,
) -> Result<(), NoMemory>
    ensures { OnOk result (text.new.items ≡ text.old.items ++ item_line request.0 place) }
{
    text.extend_from_slice(b"    item r")?;
    put_number(text, alloc, u64::from(request.0))?;
    text.extend_from_slice(b".")?;
    put_number(text, alloc, u64::from(place))?;
    text.extend_from_slice(b"\n")
}

/// Writes the lines of those of a request's items that no send or drop takes.
fn put_items(
    text: &mut Vec<u8>,
    alloc: Global,
    entries: &[Entry],
    request: RequestId,
    items: &[Item],
) -> Result<(), NoMemory>
    requires { length items.now < 2 ^ 32 }
    ensures { OnOk result (text.new.items ≡ text.old.items
        ++ flat_map waiting_line (filter (λ w. not (is_taken (reverse entries.now) w)) (named request 0 items.now))) }
{
    let mut place = 0;
    let mut rest = items;
    while let [_item, after @ ..] = rest {
        if !is_taken(entries, request, place) {
            put_item(text, alloc, request, place)?;
        }
        place += 1;
        rest = after;
    }
    Ok(())
}

/// Writes the lines of those items that the entry puts into the queue and that no send or drop takes.
fn put_waiting(
    text: &mut Vec<u8>,
    alloc: Global,
    script: &Script,
    entries: &[Entry],
    entry: &Entry,
) -> Result<(), NoMemory>
    ensures { OnOk result (text.new.items ≡ text.old.items
        ++ flat_map waiting_line (filter (λ w. not (is_taken (reverse entries.now) w)) (puts script.now entry.now))) }
{
    match entry {
        Entry::Call {
            index,
            reply: Reply::Submitted(request),
            ..
        } => put_items(
            text,
            alloc,
            entries,
            *request,
            queued_items(command_at(script, *index)),
        ),
        _ => Ok(()),
    }
}

/// The lines of the items that wait.
pub fn waiting(alloc: Global, script: &Script, entries: &[Entry]) -> Result<Vec<u8>, NoMemory>
    ensures { IfOk result (λ text. text.items ≡ waiting_lines script.now (reverse entries.now)) }
{
    let mut text = Vec::new(alloc);
    for entry in entries {
        put_waiting(&mut text, alloc, script, entries, entry)?;
    }
    Ok(text)
}
