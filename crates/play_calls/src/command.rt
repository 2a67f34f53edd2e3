//! The command of a word.
ghost use Rattle.std.specs.Prelude.{◌≡◌, ◌<◌, IfOk, replicate};
ghost use Rattle.play_calls.specs.Generated.{command_of, extra_of, plain_command, two_streams};

use crate::word::{extra_of, item_of};
use cam_types::{Command, Format, Item, ItemList, NoMemory, SpecList, StreamSpec};
use std::alloc::Global;

/// `yuv:80x60` as stream 0, and `raw16:160x120` as stream 1.
pub(crate) fn two_streams(alloc: Global) -> Result<SpecList, NoMemory>
    ensures { IfOk result (λ list. list ≡ two_streams) }
{
    let mut streams = SpecList::new(alloc);
    streams.push(StreamSpec {
        input: false,
        format: Format::Yuv,
        width: 80,
        height: 60,
    })?;
    streams.push(StreamSpec {
        input: false,
        format: Format::Raw16,
        width: 160,
        height: 120,
    })?;
    Ok(streams)
}

/// So many of one item.
fn copies(alloc: Global, item: Item, count: u32) -> Result<ItemList, NoMemory>
    requires { count < 32 }
    ensures { IfOk result (λ list. list ≡ replicate count item) }
{
    let mut items = ItemList::new(alloc);
    for _ in 0..count {
        items.push(item)?;
    }
    Ok(items)
}

/// One of the commands that take neither items nor a number.
fn plain_command(alloc: Global, word: u64) -> Result<Command, NoMemory>
    ensures { IfOk result (λ command. command ≡ plain_command (extra_of word)) }
{
    match extra_of(word) {
        0 => Ok(Command::Stop),
        1 => Ok(Command::Flush),
        2 => Ok(Command::Wait),
        _ => Ok(Command::Configure(two_streams(alloc)?)),
    }
}

/// The command that a word gives.
pub(crate) fn command_of(alloc: Global, word: u64) -> Result<Command, NoMemory>
    ensures { IfOk result (λ command. command ≡ command_of word) }
{
    match word % 8 {
        0..=2 => Ok(Command::Once(item_of(word))),
        3 | 4 => Ok(Command::Burst(copies(alloc, item_of(word), 1 + extra_of(word))?)),
        5 => Ok(Command::Repeat(copies(alloc, item_of(word), 1)?)),
        6 => Ok(Command::Await(1 + extra_of(word))),
        _ => plain_command(alloc, word),
    }
}
