//! The calls of the framework.
ghost use Rattle.std.specs.Prelude.{◌≡◌, ◌<◌, ◌≤◌, None, Some, IfOk, IfSome, false, length, map, take, true, if◌then◌else◌};
ghost use Rattle.std.specs.Option.{option_map};
ghost use Rattle.std.specs.Result.{result_err};
ghost use Rattle.hal_device.specs.Templates.{template_error};
ghost use Rattle.hal_device_c.specs.Calls.{IsAnswer, after, answered, due, is_done, or_kept, settings_told, told};
ghost use Rattle.hal_device_c.specs.Records.{max_buffers_record, settings_of, spec_of, target_of};
ghost use Rattle.hal_device_model.specs.Calls.{configure_error, configured, end_error, flush_error, initialize_error, request_error};
ghost use Rattle.hal_device_model.specs.Log.{BeginClose, BeginFlush, EndFlush, Initialize, Request, after_call};
ghost use Rattle.hal_device_c.specs.Configuring.{configure_list};
ghost use Rattle.request_checks.specs.Plan.{plan_of};

use crate::answer::{DONE, NO_MEMORY, NOT_OPEN, answer_of, number_of};
use crate::handle::{Handle, Held};
use crate::records::{
    MaxBuffersRecord, SettingsRecord, StreamRecord, TargetRecord, max_buffers_record, settings_of,
    settings_record, spec_of, target_of,
};
use cam_types::{FrameNo, NoMemory, Settings, SpecList};
use hal_device::HalDevice;
use hal_device_model::CallError;
use hal_model::HalTarget;
use std::alloc::Global;

/// The most targets of a request that isn't refused: one of each stream.
const TARGETS: usize = 4;

/// What stands behind the targets of a request.
const NO_TARGET: HalTarget = HalTarget {
    stream: 0,
    buffer: 0,
    fence: None,
};

/// camera3 `initialize`.
#[unsafe(no_mangle)]
pub extern "C" fn pauvigre_initialize(alloc: Global, handle: &mut Handle) -> i32
    ensures answer { result ≡ answered initialize_error handle.old.device }
    ensures device { handle.new.device ≡ after Initialize handle.old.device }
{
    let Some(mut held) = handle.take(alloc) else {
        return NOT_OPEN;
    };
    let answer = initialize(held.as_mut());
    handle.put(alloc, held);
    answer
}

/// camera3 `construct_default_request_settings`.
#[unsafe(no_mangle)]
pub extern "C" fn pauvigre_default_settings(
    alloc: Global,
    handle: &mut Handle,
    template: u32,
    settings: &mut SettingsRecord,
) -> i32
    ensures answer { result ≡ answered (template_error template) handle.old.device }
    ensures settings { settings.new ≡ or_kept (told (settings_told template) handle.old.device) settings.old }
    ensures device { handle.new.device ≡ handle.old.device }
{
    let Some(held) = handle.take(alloc) else {
        return NOT_OPEN;
    };
    let answer = default_settings(held.as_ref(), template, settings);
    handle.put(alloc, held);
    answer
}

/// camera3 `configure_streams`. ENOMEM leaves the device as it was.
#[unsafe(no_mangle)]
pub extern "C" fn pauvigre_configure(
    alloc: Global,
    handle: &mut Handle,
    streams: &[StreamRecord],
    max_buffers: &mut MaxBuffersRecord,
) -> i32
    ensures answer { IsAnswer (due (configure_error (map spec_of streams.now)) handle.old.device) result }
    ensures device { handle.new.device ≡ (if is_done result
        then option_map (configured (map spec_of streams.now)) handle.old.device else handle.old.device) }
    ensures max_buffers { is_done result ≡ true → IfSome handle.old.device (λ state.
        max_buffers.new ≡ max_buffers_record (plan_of state.profile (map spec_of streams.now))) }
    ensures kept { is_done result ≡ false → max_buffers.new ≡ max_buffers.old }
{
    let Some(mut held) = handle.take(alloc) else {
        return NOT_OPEN;
    };
    let answer = configure(alloc, held.as_mut(), streams, max_buffers);
    handle.put(alloc, held);
    answer
}

/// camera3 `process_capture_request` with settings.
#[unsafe(no_mangle)]
pub extern "C" fn pauvigre_request(
    alloc: Global,
    handle: &mut Handle,
    frame: u32,
    settings: &SettingsRecord,
    targets: &[TargetRecord],
) -> i32
    ensures answer { result ≡
        answered (request_error frame (Some (settings_of settings.now)) (map target_of targets.now)) handle.old.device }
    ensures device { handle.new.device ≡
        after (Request frame (Some (settings_of settings.now)) (map target_of targets.now)) handle.old.device }
{
    let settings = settings_of(*settings);
    request(alloc, handle, FrameNo(frame), Some(settings), targets)
}

/// camera3 `process_capture_request` with the settings of the request before.
#[unsafe(no_mangle)]
pub extern "C" fn pauvigre_request_as_before(
    alloc: Global,
    handle: &mut Handle,
    frame: u32,
    targets: &[TargetRecord],
) -> i32
    ensures answer { result ≡
        answered (request_error frame None (map target_of targets.now)) handle.old.device }
    ensures device { handle.new.device ≡ after (Request frame None (map target_of targets.now)) handle.old.device }
{
    request(alloc, handle, FrameNo(frame), None, targets)
}

/// camera3 `flush` begins.
#[unsafe(no_mangle)]
pub extern "C" fn pauvigre_begin_flush(alloc: Global, handle: &mut Handle) -> i32
    ensures answer { result ≡ answered flush_error handle.old.device }
    ensures device { handle.new.device ≡ after BeginFlush handle.old.device }
{
    let Some(mut held) = handle.take(alloc) else {
        return NOT_OPEN;
    };
    let answer = begin_flush(held.as_mut());
    handle.put(alloc, held);
    answer
}

/// camera3 `flush` ends.
#[unsafe(no_mangle)]
pub extern "C" fn pauvigre_end_flush(alloc: Global, handle: &mut Handle) -> i32
    ensures answer { result ≡ answered end_error handle.old.device }
    ensures device { handle.new.device ≡ after EndFlush handle.old.device }
{
    let Some(mut held) = handle.take(alloc) else {
        return NOT_OPEN;
    };
    let answer = end_flush(held.as_mut());
    handle.put(alloc, held);
    answer
}

/// camera3 `close` begins.
#[unsafe(no_mangle)]
pub extern "C" fn pauvigre_begin_close(alloc: Global, handle: &mut Handle) -> i32
    ensures answer { result ≡ answered (λ state. None) handle.old.device }
    ensures device { handle.new.device ≡ after BeginClose handle.old.device }
{
    let Some(mut held) = handle.take(alloc) else {
        return NOT_OPEN;
    };
    begin_close(held.as_mut());
    handle.put(alloc, held);
    DONE
}

fn request(
    alloc: Global,
    handle: &mut Handle,
    frame: FrameNo,
    settings: Option<Settings>,
    targets: &[TargetRecord],
) -> i32
    ensures answer { result ≡
        answered (request_error frame.0 settings (map target_of targets.now)) handle.old.device }
    ensures device { handle.new.device ≡ after (Request frame.0 settings (map target_of targets.now)) handle.old.device }
{
    let Some(mut held) = handle.take(alloc) else {
        return NOT_OPEN;
    };
    let ended = request_of(held.as_mut(), frame, settings, targets);
    handle.put(alloc, held);
    answer_of(ended)
}

// ---- on a device that is open

fn initialize(held: &mut Held) -> i32
    ensures answer { result ≡ answered initialize_error (Some held.old) }
    ensures device { held.new ≡ after_call Initialize held.old }
{
    answer_of(held.device.initialize())
}

fn begin_flush(held: &mut Held) -> i32
    ensures answer { result ≡ answered flush_error (Some held.old) }
    ensures device { held.new ≡ after_call BeginFlush held.old }
{
    answer_of(held.device.begin_flush())
}

fn end_flush(held: &mut Held) -> i32
    ensures answer { result ≡ answered end_error (Some held.old) }
    ensures device { held.new ≡ after_call EndFlush held.old }
{
    answer_of(held.device.end_flush())
}

fn begin_close(held: &mut Held)
    ensures { held.new ≡ after_call BeginClose held.old }
{
    held.device.begin_close();
}

fn default_settings(held: &Held, template: u32, settings: &mut SettingsRecord) -> i32
    ensures answer { result ≡ answered (template_error template) (Some held.now) }
    ensures settings { settings.new ≡ or_kept (settings_told template held.now) settings.old }
{
    match held.device.default_settings(template) {
        Ok(given) => {
            *settings = settings_record(given);
            DONE
        }
        Err(error) => number_of(error),
    }
}

fn configure(
    alloc: Global,
    held: &mut Held,
    streams: &[StreamRecord],
    max_buffers: &mut MaxBuffersRecord,
) -> i32
    ensures answer { IsAnswer (configure_error (map spec_of streams.now) held.old) result }
    ensures device { held.new ≡
        (if is_done result then configured (map spec_of streams.now) held.old else held.old) }
    ensures max_buffers { is_done result ≡ true →
        max_buffers.new ≡ max_buffers_record (plan_of held.old.profile (map spec_of streams.now)) }
    ensures kept { is_done result ≡ false → max_buffers.new ≡ max_buffers.old }
{
    let Ok(specs) = specs_of(alloc, streams) else {
        return NO_MEMORY;
    };
    match held.device.configure(alloc, &specs) {
        Ok(plan) => {
            *max_buffers = max_buffers_record(plan);
            DONE
        }
        Err(error) => number_of(error),
    }
}

/// The streams. More than four, which no device has, stand as none, which is refused as well.
fn specs_of(alloc: Global, streams: &[StreamRecord]) -> Result<SpecList, NoMemory>
    ensures { IfOk result (λ specs. specs ≡ configure_list (map spec_of streams.now)) }
{
    if 4 < streams.len() {
        return Ok(SpecList::new(alloc));
    }
    few_specs_of(alloc, streams)
}

fn few_specs_of(alloc: Global, streams: &[StreamRecord]) -> Result<SpecList, NoMemory>
    requires { length streams.now ≤ 4 }
    ensures { IfOk result (λ specs. specs ≡ map spec_of streams.now) }
{
    let mut specs = SpecList::new(alloc);
    for stream in streams {
        specs.push(spec_of(*stream))?;
    }
    Ok(specs)
}

fn request_of(
    held: &mut Held,
    frame: FrameNo,
    settings: Option<Settings>,
    targets: &[TargetRecord],
) -> Result<(), CallError>
    ensures answer { result_err result ≡ request_error frame.0 settings (map target_of targets.now) held.old }
    ensures device { held.new ≡ after_call (Request frame.0 settings (map target_of targets.now)) held.old }
{
    if targets.len() <= TARGETS {
        let few = few_targets(targets);
        held.device.request(frame, settings, &few[..targets.len()])
    } else {
        request_many(&mut held.device, frame, settings, targets)
    }
}

/// The targets of a request with few, in the front of an array.
fn few_targets(targets: &[TargetRecord]) -> [HalTarget; TARGETS]
    requires { length targets.now ≤ 4 }
    ensures { take (length targets.now) result ≡ map target_of targets.now }
{
    let mut few = [NO_TARGET; TARGETS];
    for (place, target) in targets.iter().enumerate() {
        few[place] = target_of(*target);
    }
    few
}

/// Makes a request with more than four targets, one of which is of a stream that isn't configured or that another has
/// too: it is refused as one without a target is.
fn request_many(
    device: &mut HalDevice,
    frame: FrameNo,
    settings: Option<Settings>,
    targets: &[TargetRecord],
) -> Result<(), CallError>
    requires { 4 < length targets.now }
    ensures answer { result_err result ≡ request_error frame.0 settings (map target_of targets.now) device.old }
    ensures device { device.new ≡ after_call (Request frame.0 settings (map target_of targets.now)) device.old }
{
    device.request(frame, settings, &[])
}
