//! Calls that enter the device: configurations, flushes and closes.
ghost use Rattle.std.specs.Prelude.{◌≡◌, ◌++◌, ◌∷◌, [], List, IfOk, OnOk, reverse, if◌then◌else◌};
ghost use Rattle.hal_model.specs.declared.event.Direction.TheVariants.{Input, Output};
ghost use Rattle.hal_call.specs.Standing.{standing_of};
ghost use Rattle.hal_model.specs.Hal.{called, closed_by, configured, configured_by, flush_begun, flush_ended, format as format_named, most_from, stream, streams_from};
ghost use Rattle.trace_model.specs.Calls.{command_at};
ghost use Rattle.trace_model.specs.Configuration.{streams_of as specs_of};
ghost use Rattle.trace_model.specs.declared.entry.Entry.{Entry as SomeEntry};

use crate::event::append;
use crate::standing::{Standing, is_closing};
use cam_types::{Command, Format, Listing, NoMemory, Profile, Reply, Script, StreamSpec, Word};
use hal_model::{Direction, EventList, HalEvent, HalFormat, HalStream, StreamMax};
use judge_entries::command::command_at;
use std::alloc::Global;

fn format(format: Format) -> HalFormat
    ensures { result ≡ format_named format }
{
    match format {
        Format::Raw16 => HalFormat::Raw16,
        Format::Yuv => HalFormat::Yuv,
        Format::Other(number) => HalFormat::Number(number),
    }
}

fn direction(spec: &StreamSpec) -> Direction
    ensures { result ≡ (if spec.now.input then Input else Output) }
{
    if spec.input {
        Direction::Input
    } else {
        Direction::Output
    }
}

/// A stream of a configuration.
fn stream(number: u32, spec: &StreamSpec) -> HalStream
    ensures { result ≡ stream number spec.now }
{
    HalStream {
        stream: number,
        format: format(spec.format),
        width: spec.width,
        height: spec.height,
        rotation: 0,
        direction: direction(spec),
    }
}

/// The streams of a configuration, numbered from 0 on.
fn streams_of(alloc: Global, specs: &[StreamSpec]) -> Result<Listing<HalStream>, NoMemory>
    ensures { IfOk result (λ list. list ≡ streams_from 0 specs.now) }
{
    let mut list = Listing::new(alloc);
    for spec in specs {
        let entry = stream(list.len(), spec);
        append(&mut list, entry)?;
    }
    Ok(list)
}

/// How many buffers of each stream the device takes.
fn most_of(
    alloc: Global,
    profile: Profile,
    specs: &[StreamSpec],
) -> Result<Listing<StreamMax>, NoMemory>
    ensures { IfOk result (λ list. list ≡ most_from profile 0 specs.now) }
{
    let mut list = Listing::new(alloc);
    for spec in specs {
        let entry = StreamMax {
            stream: list.len(),
            max: profile.max_buffers(spec.format),
        };
        append(&mut list, entry)?;
    }
    Ok(list)
}

/// The streams that a command configures.
fn specs_at(script: &Script, index: u32) -> &[StreamSpec]
    ensures { result.now ≡ specs_of (command_at script.now index) }
{
    match command_at(script, index) {
        Some(Command::Configure(specs)) => specs.as_slice(),
        _ => &[],
    }
}

/// Appends an accepted configuration.
fn add_configuration(
    alloc: Global,
    log: &mut EventList,
    profile: Profile,
    specs: &[StreamSpec],
) -> Result<(), NoMemory>
    ensures { OnOk result (log.new ≡ log.old ++ reverse (configured profile specs.now)) }
{
    let streams = streams_of(alloc, specs)?;
    let most = most_of(alloc, profile, specs)?;
    append(
        log,
        HalEvent::ConfigureBegin {
            mode: None,
            streams,
        },
    )?;
    append(log, HalEvent::ConfigureOk { most })
}

/// Appends the configuration that a reply accepts, where it accepts one.
fn add_configured(
    alloc: Global,
    log: &mut EventList,
    script: &Script,
    index: u32,
    reply: &Reply,
) -> Result<(), NoMemory>
    ensures { OnOk result (log.new ≡ log.old ++ reverse (configured_by script.now index reply.now)) }
{
    match reply {
        Reply::Configured(_) => {
            add_configuration(alloc, log, script.profile, specs_at(script, index))
        }
        _ => Ok(()),
    }
}

/// Appends an event, where it is there.
fn add_where(log: &mut EventList, holds: bool, event: HalEvent) -> Result<(), NoMemory>
    ensures { OnOk result (log.new ≡ log.old ++ (if holds then event ∷ [] else [])) }
{
    if holds {
        return append(log, event);
    }
    Ok(())
}

/// Appends a close, where the command closes the service.
fn add_close(log: &mut EventList, closes: bool) -> Result<(), NoMemory>
    ensures { OnOk result (log.new ≡ log.old ++ reverse (closed_by closes)) }
{
    if closes {
        append(log, HalEvent::CloseBegin)?;
        return append(log, HalEvent::CloseEnd);
    }
    Ok(())
}

/// Appends what a command does at the device as it begins.
pub fn add_begun(log: &mut EventList, standing: Standing, word: Word) -> Result<(), NoMemory>
    ensures { (past : List SomeEntry) → standing ≡ standing_of past →
        OnOk result (log.new ≡ log.old ++ reverse (flush_begun word past)) }
{
    add_where(log, standing.flushes(word), HalEvent::FlushBegin)
}

/// Appends what an answered command did at the device.
pub fn add_called(
    alloc: Global,
    log: &mut EventList,
    script: &Script,
    standing: Standing,
    index: u32,
    word: Word,
    reply: &Reply,
) -> Result<(), NoMemory>
    ensures { (past : List SomeEntry) → standing ≡ standing_of past →
        OnOk result (log.new ≡ log.old ++ reverse (called script.now past index word reply.now)) }
{
    add_configured(alloc, log, script, index, reply)?;
    add_where(log, standing.flushes(word), HalEvent::FlushOk)?;
    add_close(log, is_closing(word, reply))
}
