//! The buffers that aren't in the pool.
ghost use Rattle.std.specs.Prelude.{◌≡◌, ◌++◌, IfOk, OnOk, option_to_list, reverse};
ghost use Rattle.std.specs.List.{flat_map, range_with_len};
ghost use Rattle.cam_types.specs.Four.{four_list};
ghost use Rattle.explain_call.specs.Missing.{buffer_line, buffer_lines, made_lines, where_text};

use cam_types::{Made, NoMemory};
use judge_filters::configuration::made;
use judge_filters::place::{is_at_device, is_in_pool};
use std::alloc::Global;
use trace_model::Entry;
use wrong_words::put_number;

/// Where a buffer is that isn't in the pool.
fn where_text(at_device: bool) -> &'static str
    ensures { result.now ≡ where_text at_device }
{
    if at_device {
        " at the device\n"
    } else {
        " at the client\n"
    }
}

/// Writes the line of a buffer, where that isn't in the pool.
#[tactic(auto, unfolding(crate::specs::Missing::buffer_line))]
fn put_buffer(
    text: &mut Vec<u8>,
    alloc: Global,
    entries: &[Entry],
    number: u64,
) -> Result<(), NoMemory>
    ensures { OnOk result (text.new.items ≡ text.old.items ++ buffer_line (reverse entries.now) number) }
{
    if is_in_pool(entries, number) {
        return Ok(());
    }
    text.extend_from_slice(b"    buffer b")?;
    put_number(text, alloc, number)?;
    text.extend_from_slice(where_text(is_at_device(entries, number)).as_bytes())
}

/// Writes the lines of the buffers from a number on, so many of them.
#[tactic(auto, using(crate::proofs::MissingLists::range_next))]
fn put_range(
    text: &mut Vec<u8>,
    alloc: Global,
    entries: &[Entry],
    first: u32,
    count: u32,
) -> Result<(), NoMemory>
    ensures { OnOk result (text.new.items ≡ text.old.items
        ++ flat_map (buffer_line (reverse entries.now)) (range_with_len first count)) }
{
    let mut number = u64::from(first);
    let mut left = count;
    while left > 0 {
        put_buffer(text, alloc, entries, number)?;
        number += 1;
        left -= 1;
    }
    Ok(())
}

/// Writes the lines of the buffers made for one stream, if there is one.
fn put_made(
    text: &mut Vec<u8>,
    alloc: Global,
    entries: &[Entry],
    made: Option<Made>,
) -> Result<(), NoMemory>
    ensures { OnOk result (text.new.items ≡ text.old.items
        ++ flat_map (made_lines (reverse entries.now)) (option_to_list made)) }
{
    match made {
        Some(made) => put_range(text, alloc, entries, made.first.0, made.count),
        None => Ok(()),
    }
}

/// The lines of the buffers that aren't in the pool.
#[tactic(auto, using(crate::proofs::MissingLists::four_flat))]
pub fn out_of_pool(alloc: Global, entries: &[Entry]) -> Result<Vec<u8>, NoMemory>
    ensures { IfOk result (λ text. text.items ≡ buffer_lines (reverse entries.now)) }
{
    let mut text = Vec::new(alloc);
    let each = made(entries);
    put_made(&mut text, alloc, entries, each.a)?;
    put_made(&mut text, alloc, entries, each.b)?;
    put_made(&mut text, alloc, entries, each.c)?;
    put_made(&mut text, alloc, entries, each.d)?;
    Ok(text)
}
