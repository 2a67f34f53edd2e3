//! The steps of frames.
ghost use Rattle.std.specs.Prelude.{◌≡◌, Some, false, is_some, length, true};
ghost use Rattle.hal_device_c.specs.Calls.{IsShownBy, after, buffer_told, error_told, exposure_told, is_done, or_kept, part_told, stepped, told};
ghost use Rattle.hal_device_model.specs.Calls.{may_deliver, may_fill, may_return_failed};
ghost use Rattle.hal_device_model.specs.Log.{Deliver, Expose, Fill, ReturnFailed, SendPart, TellError, after_call};

use crate::answer::{NOT_OPEN, step_answer};
use crate::handle::{Handle, Held};
use crate::records::{DeliveredRecord, ErrorRecord, PartRecord, error_record, part_record};
use cam_types::{FrameNo, StreamIx};
use std::alloc::Global;

/// Begins the next exposure at this time, in nanoseconds, and exposes the frame.
#[unsafe(no_mangle)]
pub extern "C" fn pauvigre_expose(
    alloc: Global,
    handle: &mut Handle,
    time: u64,
    frame: &mut u32,
) -> i32
    ensures answer { result ≡ stepped (λ state. is_some (exposure_told state)) handle.old.device }
    ensures frame { frame.new ≡ or_kept (told exposure_told handle.old.device) frame.old }
    ensures device { handle.new.device ≡ after (Expose time) handle.old.device }
{
    let Some(mut held) = handle.take(alloc) else {
        return NOT_OPEN;
    };
    let is_made = expose(held.as_mut(), time, frame);
    handle.put(alloc, held);
    step_answer(is_made)
}

/// Gives the next partial result of a frame.
#[unsafe(no_mangle)]
pub extern "C" fn pauvigre_send_part(
    alloc: Global,
    handle: &mut Handle,
    frame: u32,
    part: &mut PartRecord,
) -> i32
    ensures answer { result ≡ stepped (λ state. is_some (part_told frame state)) handle.old.device }
    ensures part { part.new ≡ or_kept (told (part_told frame) handle.old.device) part.old }
    ensures device { handle.new.device ≡ after (SendPart frame) handle.old.device }
{
    let Some(mut held) = handle.take(alloc) else {
        return NOT_OPEN;
    };
    let is_made = send_part(held.as_mut(), FrameNo(frame), part);
    handle.put(alloc, held);
    step_answer(is_made)
}

/// Draws the picture of a target, whose acquire fence was waited for.
#[unsafe(no_mangle)]
pub extern "C" fn pauvigre_fill(alloc: Global, handle: &mut Handle, frame: u32, stream: u8) -> i32
    ensures answer { result ≡ stepped (may_fill frame stream) handle.old.device }
    ensures device { handle.new.device ≡ after (Fill frame (record { 0 = stream })) handle.old.device }
{
    let Some(mut held) = handle.take(alloc) else {
        return NOT_OPEN;
    };
    let is_made = fill(held.as_mut(), FrameNo(frame), StreamIx(stream));
    handle.put(alloc, held);
    step_answer(is_made)
}

/// Writes the picture of a target to the framework's memory, whose buffer comes back.
#[unsafe(no_mangle)]
pub extern "C" fn pauvigre_deliver(
    alloc: Global,
    handle: &mut Handle,
    frame: u32,
    stream: u8,
    memory: &mut [u8],
    delivered: &mut DeliveredRecord,
) -> i32
    ensures answer { result ≡ stepped (may_deliver frame stream (length memory.old)) handle.old.device }
    ensures picture { is_done result ≡ true →
        IsShownBy frame stream handle.old.device memory.new delivered.new }
    ensures memory { is_done result ≡ false → memory.new ≡ memory.old }
    ensures delivered { is_done result ≡ false → delivered.new ≡ delivered.old }
    ensures device { handle.new.device ≡
        after (Deliver frame (record { 0 = stream }) (length memory.old)) handle.old.device }
{
    let Some(mut held) = handle.take(alloc) else {
        return NOT_OPEN;
    };
    let is_made = deliver(
        held.as_mut(),
        FrameNo(frame),
        StreamIx(stream),
        memory,
        delivered,
    );
    handle.put(alloc, held);
    step_answer(is_made)
}

/// Tells the error that is due at a frame.
#[unsafe(no_mangle)]
pub extern "C" fn pauvigre_tell_error(
    alloc: Global,
    handle: &mut Handle,
    frame: u32,
    error: &mut ErrorRecord,
) -> i32
    ensures answer { result ≡ stepped (λ state. is_some (error_told frame state)) handle.old.device }
    ensures error { error.new ≡ or_kept (told (error_told frame) handle.old.device) error.old }
    ensures device { handle.new.device ≡ after (TellError frame) handle.old.device }
{
    let Some(mut held) = handle.take(alloc) else {
        return NOT_OPEN;
    };
    let is_made = tell_error(held.as_mut(), FrameNo(frame), error);
    handle.put(alloc, held);
    step_answer(is_made)
}

/// Gives the framework's buffer for a target back in error.
#[unsafe(no_mangle)]
pub extern "C" fn pauvigre_return_failed(
    alloc: Global,
    handle: &mut Handle,
    frame: u32,
    stream: u8,
    buffer: &mut u32,
) -> i32
    ensures answer { result ≡ stepped (may_return_failed frame stream) handle.old.device }
    ensures buffer { buffer.new ≡ or_kept (told (buffer_told frame stream) handle.old.device) buffer.old }
    ensures device { handle.new.device ≡ after (ReturnFailed frame (record { 0 = stream })) handle.old.device }
{
    let Some(mut held) = handle.take(alloc) else {
        return NOT_OPEN;
    };
    let is_made = return_failed(held.as_mut(), FrameNo(frame), StreamIx(stream), buffer);
    handle.put(alloc, held);
    step_answer(is_made)
}

// ---- on a device that is open

fn expose(held: &mut Held, time: u64, frame: &mut u32) -> bool
    ensures made { result ≡ is_some (exposure_told held.old) }
    ensures frame { frame.new ≡ or_kept (exposure_told held.old) frame.old }
    ensures device { held.new ≡ after_call (Expose time) held.old }
{
    match held.device.expose(time) {
        Some(exposed) => {
            *frame = exposed.0;
            true
        }
        None => false,
    }
}

fn send_part(held: &mut Held, frame: FrameNo, part: &mut PartRecord) -> bool
    ensures made { result ≡ is_some (part_told frame.0 held.old) }
    ensures part { part.new ≡ or_kept (part_told frame.0 held.old) part.old }
    ensures device { held.new ≡ after_call (SendPart frame.0) held.old }
{
    match held.device.send_part(frame) {
        Some(sent) => {
            *part = part_record(sent);
            true
        }
        None => false,
    }
}

fn fill(held: &mut Held, frame: FrameNo, stream: StreamIx) -> bool
    ensures made { result ≡ may_fill frame.0 stream.0 held.old }
    ensures device { held.new ≡ after_call (Fill frame.0 stream) held.old }
{
    held.device.fill(frame, stream)
}

fn deliver(
    held: &mut Held,
    frame: FrameNo,
    stream: StreamIx,
    memory: &mut [u8],
    delivered: &mut DeliveredRecord,
) -> bool
    ensures made { result ≡ may_deliver frame.0 stream.0 (length memory.old) held.old }
    ensures picture { result ≡ true →
        IsShownBy frame.0 stream.0 (Some held.old) memory.new delivered.new }
    ensures memory { result ≡ false → memory.new ≡ memory.old }
    ensures delivered { result ≡ false → delivered.new ≡ delivered.old }
    ensures device { held.new ≡ after_call (Deliver frame.0 stream (length memory.old)) held.old }
{
    match held.device.deliver(frame, stream, memory) {
        Some(done) => {
            let digest = done.digest;
            *delivered = DeliveredRecord {
                buffer: done.buffer.0,
                digest,
            };
            true
        }
        None => false,
    }
}

fn tell_error(held: &mut Held, frame: FrameNo, error: &mut ErrorRecord) -> bool
    ensures made { result ≡ is_some (error_told frame.0 held.old) }
    ensures error { error.new ≡ or_kept (error_told frame.0 held.old) error.old }
    ensures device { held.new ≡ after_call (TellError frame.0) held.old }
{
    match held.device.tell_error(frame) {
        Some(told) => {
            *error = error_record(told);
            true
        }
        None => false,
    }
}

fn return_failed(held: &mut Held, frame: FrameNo, stream: StreamIx, buffer: &mut u32) -> bool
    ensures made { result ≡ may_return_failed frame.0 stream.0 held.old }
    ensures buffer { buffer.new ≡ or_kept (buffer_told frame.0 stream.0 held.old) buffer.old }
    ensures device { held.new ≡ after_call (ReturnFailed frame.0 stream) held.old }
{
    match held.device.return_failed(frame, stream) {
        Some(back) => {
            *buffer = back.0;
            true
        }
        None => false,
    }
}
