//! The callbacks of the device.
ghost use Rattle.std.specs.Prelude.{◌≡◌, ◌++◌, ◌∷◌, [], IfOk, OnOk, IsTrue, Some, false, option_to_list};
ghost use Rattle.hal_model.specs.declared.event.HalEvent.TheVariants.{Results};
ghost use Rattle.hal_model.specs.declared.event.Pack.TheVariants.{Entries};
ghost use Rattle.hal_call.specs.Fences.{is_fitting, is_small_fence};
ghost use Rattle.hal_model.specs.Hal.{callback, gives_back, left_fence};

use crate::event::append;
use cam_types::{BufferId, FenceNo, FrameNo, Listing, NoMemory, StreamIx};
use hal_model::{EventList, HalEvent, HalFence, Pack, Returned, Status};
use std::alloc::Global;
use trace_model::Entry;

/// The release fence of a failed buffer: a fence of the client, or none.
fn left_fence(fence: Option<FenceNo>) -> HalFence
    requires { IsTrue (is_small_fence fence) }
    ensures { result ≡ left_fence fence }
{
    match fence {
        Some(fence) => HalFence::Number(2 * fence.0),
        None => HalFence::Absent,
    }
}

/// A result that gives one buffer back.
fn gives_back(
    alloc: Global,
    frame: FrameNo,
    stream: StreamIx,
    buffer: BufferId,
    status: Status,
    release: HalFence,
) -> Result<HalEvent, NoMemory>
    ensures { IfOk result (λ event. event ≡ gives_back frame.0 stream.0 buffer.0 status release) }
{
    let mut buffers = Listing::new(alloc);
    append(
        &mut buffers,
        Returned {
            stream: Some(u32::from(stream.0)),
            buffer: Some(buffer.0),
            status,
            release,
            acquire: false,
        },
    )?;
    Ok(HalEvent::Results {
        frame: frame.0,
        partial: 0,
        pack: Pack::Absent,
        buffers,
        input: false,
    })
}

/// A result that gives a part of the metadata.
fn gives_part(alloc: Global, frame: FrameNo, number: u8) -> HalEvent
    ensures { result ≡ Results frame.0 number Entries [] false }
{
    HalEvent::Results {
        frame: frame.0,
        partial: u32::from(number),
        pack: Pack::Entries,
        buffers: Listing::new(alloc),
        input: false,
    }
}

/// The callback of an entry.
fn callback(alloc: Global, entry: &Entry) -> Result<Option<HalEvent>, NoMemory>
    requires { IsTrue (is_fitting entry.now) }
    ensures { IfOk result (λ event. event ≡ callback entry.now) }
{
    let event = match entry {
        Entry::Shutter { frame, time } => HalEvent::Shutter {
            frame: frame.0,
            time: *time,
        },
        Entry::Partial { frame, number, .. } => gives_part(alloc, *frame, *number),
        Entry::Filled {
            frame,
            stream,
            buffer,
            ..
        } => gives_back(
            alloc,
            *frame,
            *stream,
            *buffer,
            Status::Filled,
            HalFence::Absent,
        )?,
        Entry::Early {
            frame,
            stream,
            buffer,
            fence,
        } => {
            let release = HalFence::Number(2 * fence.0 + 1);
            gives_back(alloc, *frame, *stream, *buffer, Status::Filled, release)?
        }
        Entry::Failed {
            frame,
            stream,
            buffer,
            fence,
        } => {
            let release = left_fence(*fence);
            gives_back(alloc, *frame, *stream, *buffer, Status::Failed, release)?
        }
        Entry::ErrorRequest { frame } => HalEvent::ErrorRequest { frame: frame.0 },
        Entry::ErrorResult { frame } => HalEvent::ErrorResult { frame: frame.0 },
        Entry::ErrorBuffer { frame, stream } => HalEvent::ErrorBuffer {
            frame: frame.0,
            stream: Some(u32::from(stream.0)),
        },
        Entry::ErrorDevice => HalEvent::ErrorDevice,
        _ => return Ok(None),
    };
    Ok(Some(event))
}

/// Appends the callback of an entry, where it has one.
pub fn add_callback(alloc: Global, log: &mut EventList, entry: &Entry) -> Result<(), NoMemory>
    requires { IsTrue (is_fitting entry.now) }
    ensures { OnOk result (log.new ≡ log.old ++ option_to_list (callback entry.now)) }
{
    match callback(alloc, entry)? {
        Some(event) => append(log, event),
        None => Ok(()),
    }
}
