//! What is known of the device, and how an event is noted in it.
ghost use Rattle.std.specs.Prelude.{◌≡◌, ◌<◌, ◌&&◌, ◌||◌, [], false, length, IfOk, OnOk, if◌then◌else◌};
ghost use Rattle.hal_rows.specs.declared.device.Call.{Call as ACall};
ghost use Rattle.hal_rows.specs.Device.{asked_after, begun_after, device_of, kills, most_after, note_device, settings_after, streams_after, top_after};
ghost use Rattle.hal_table.specs.Devices.{call_after};

use cam_types::{Listing, NoMemory};
use hal_model::{HalEvent, HalStream, StreamMax};
use hal_row::above;
use hal_row::word::{
    begins_close, begins_configure, begins_flush, begins_request, configures, ends_close,
    ends_configure, ends_flush, inited, inits, is_error_device, is_init_ok, is_no_device, opened,
    opens, stands, templated, templates,
};
use hal_rows::{Call, Device};
use std::alloc::{AllocError, Global};

// ---- calls

/// A call of which nothing stands.
fn no_call() -> Call
    ensures { result ≡ record { out = false; initialized = false; dead = false } }
{
    Call {
        out: false,
        initialized: false,
        dead: false,
    }
}

/// A call after an event that begins or ends it or neither, where the device was initialized and dead.
fn note_call(begins: bool, ends: bool, initialized: bool, dead: bool, call: Call) -> Call
    ensures { result ≡ call_after begins ends initialized dead call }
{
    if begins {
        Call {
            out: true,
            initialized,
            dead,
        }
    } else if ends {
        Call {
            out: false,
            initialized: call.initialized,
            dead: call.dead,
        }
    } else {
        call
    }
}

/// Whether the device is dead by the event, where the call for a template is this.
fn kills(event: &HalEvent, template: Call) -> bool
    ensures { result ≡ kills event.now template }
{
    match event {
        HalEvent::ErrorDevice => true,
        HalEvent::InitError { error } => is_no_device(error),
        HalEvent::TemplateNull { template: asked } => (0 < *asked && *asked <= 6)
            && template.initialized,
        HalEvent::ConfigureError { error } => is_no_device(error),
        HalEvent::RequestError { error, .. } => is_no_device(error),
        HalEvent::FlushError { error } => is_no_device(error),
        _ => false,
    }
}

// ---- the configuration

/// The same list.
fn copied<T: Copy + Drop>(alloc: Global, list: &Listing<T>) -> Result<Listing<T>, NoMemory>
    ensures { IfOk result (λ same. same ≡ list.now) }
{
    let _count = list.len();
    let mut same = Listing::new(alloc);
    for entry in list.as_slice() {
        same.push(*entry)?;
    }
    Ok(same)
}

fn note_streams(
    alloc: Global,
    event: &HalEvent,
    asked: &Listing<HalStream>,
    streams: &mut Listing<HalStream>,
) -> Result<(), NoMemory>
    ensures { OnOk result (streams.new ≡ streams_after event.now asked.now streams.old) }
{
    match event {
        HalEvent::ConfigureOk { .. } => {
            *streams = copied(alloc, asked)?;
            Ok(())
        }
        _ => Ok(()),
    }
}

fn note_asked(
    alloc: Global,
    event: &HalEvent,
    asked: &mut Listing<HalStream>,
) -> Result<(), NoMemory>
    ensures { OnOk result (asked.new ≡ asked_after event.now asked.old) }
{
    match event {
        HalEvent::ConfigureBegin { streams, .. } => {
            *asked = copied(alloc, streams)?;
            Ok(())
        }
        _ => Ok(()),
    }
}

fn note_most(alloc: Global, event: &HalEvent, most: &mut Listing<StreamMax>) -> Result<(), NoMemory>
    ensures { OnOk result (most.new ≡ most_after event.now most.old) }
{
    match event {
        HalEvent::ConfigureOk { most: each } => {
            *most = copied(alloc, each)?;
            Ok(())
        }
        _ => Ok(()),
    }
}

fn settings_after(event: &HalEvent, known: bool) -> bool
    ensures { result ≡ settings_after event.now known }
{
    match event {
        HalEvent::ConfigureOk { .. } => false,
        HalEvent::RequestOk { .. } => true,
        _ => known,
    }
}

// ---- numbers

fn top_after(event: &HalEvent, top: u64) -> u64
    ensures { result ≡ top_after event.now top }
{
    match event {
        HalEvent::RequestOk { frame } => above(*frame, top),
        _ => top,
    }
}

/// How many requests were begun. An error where the number is too great to be kept.
fn begun_after(event: &HalEvent, begun: u32) -> Result<u32, NoMemory>
    ensures { IfOk result (λ count. count ≡ begun_after event.now begun) }
{
    if !begins_request(event) {
        return Ok(begun);
    }
    if begun == u32::MAX {
        return Err(AllocError);
    }
    Ok(begun + 1)
}

// ---- the device

/// The device before anything is known of it.
pub(crate) fn new_device(alloc: Global) -> Device
    ensures { result ≡ device_of [] }
{
    Device {
        initialized: false,
        init_begun: false,
        closing: false,
        closed: false,
        failed: false,
        dead: false,
        opening: no_call(),
        init: no_call(),
        template: no_call(),
        configure: no_call(),
        flush: no_call(),
        close: no_call(),
        asked: Listing::new(alloc),
        configured: false,
        streams: Listing::new(alloc),
        most: Listing::new(alloc),
        settings: false,
        top: 0,
        begun: 0,
    }
}

/// Notes an event.
pub(crate) fn note_device(
    alloc: Global,
    event: &HalEvent,
    device: &mut Device,
) -> Result<(), NoMemory>
    ensures { OnOk result (device.new ≡ note_device event.now device.old) }
{
    let initialized = device.initialized;
    let dead = device.dead;
    device.dead = stands(kills(event, device.template), dead);
    device.initialized = stands(is_init_ok(event), initialized);
    device.init_begun = stands(inits(event), device.init_begun);
    device.closing = stands(begins_close(event), device.closing);
    device.closed = stands(ends_close(event), device.closed);
    device.failed = stands(is_error_device(event), device.failed);
    device.configured = stands(configures(event), device.configured);
    device.settings = settings_after(event, device.settings);
    device.top = top_after(event, device.top);
    device.opening = note_call(
        opens(event),
        opened(event),
        initialized,
        dead,
        device.opening,
    );
    device.init = note_call(inits(event), inited(event), initialized, dead, device.init);
    device.template = note_call(
        templates(event),
        templated(event),
        initialized,
        dead,
        device.template,
    );
    device.configure = note_call(
        begins_configure(event),
        ends_configure(event),
        initialized,
        dead,
        device.configure,
    );
    device.flush = note_call(
        begins_flush(event),
        ends_flush(event),
        initialized,
        dead,
        device.flush,
    );
    device.close = note_call(
        begins_close(event),
        ends_close(event),
        initialized,
        dead,
        device.close,
    );
    device.begun = begun_after(event, device.begun)?;
    note_streams(alloc, event, &device.asked, &mut device.streams)?;
    note_asked(alloc, event, &mut device.asked)?;
    note_most(alloc, event, &mut device.most)?;
    Ok(())
}
