//! The rules that bind the framework: whether an event breaks them.
ghost use Rattle.std.specs.Prelude.{◌≡◌, ◌==◌, ◌+◌, ◌&&◌, ◌||◌, ℕ, count_by, find, min, nat_lt, not, option_copied, sum_by};
ghost use Rattle.std.specs.List.{list_all, list_any};
ghost use Rattle.hal_model.specs.Framework.{has_no_output, has_two_inputs, is_past};
ghost use Rattle.hal_model.specs.Words.{is_begin};
ghost use Rattle.hal_rows.specs.Judged.{call_after_close_at, configure_in_flight_at, excused_at, frame_number_at, held_count_at, init_order_at, init_twice_at, is_flawed_at, is_held_at, is_held_target_at, is_holding, is_holding_for, is_in_other_call_at, is_output_in, is_requesting_at, is_row_called_from, is_too_many_at, no_configuration_at, no_output_at, no_settings_at, overlapping_calls_at, two_inputs_at};
ghost use Rattle.hal_checks.specs.Targets.{has_wrong_target, is_target_wrong};
ghost use Rattle.hal_table.specs.State.{state_of};

use crate::meant::{Which, is_some_meant};
use crate::stream::{
    are_outputs_in, find_most, has_no_output, has_two_inputs, is_twice_buffer, is_twice_stream,
    is_unknown_in, is_without_target, stream_count,
};
use hal_model::{HalEvent, HalStream, HalTarget, StreamMax};
use hal_rows::Device;
use hal_table::HalTable;

/// Whether a call begins.
fn is_begin(event: &HalEvent) -> bool
    ensures { result ≡ is_begin event.now }
{
    matches!(
        event,
        HalEvent::OpenBegin
            | HalEvent::InitBegin
            | HalEvent::TemplateBegin { .. }
            | HalEvent::ConfigureBegin { .. }
            | HalEvent::RequestBegin { .. }
            | HalEvent::FlushBegin
            | HalEvent::CloseBegin
    )
}

// ---- calls

/// Whether a call begins before the device is initialized.
pub fn init_order(event: &HalEvent, table: &HalTable) -> bool
    ensures { result ≡ init_order_at event.now (state_of table.now) }
{
    match event {
        HalEvent::OpenBegin => false,
        HalEvent::InitBegin => false,
        HalEvent::CloseBegin => false,
        _ => is_begin(event) && !table.device().initialized,
    }
}

/// Whether initialize begins a second time.
pub fn init_twice(event: &HalEvent, table: &HalTable) -> bool
    ensures { result ≡ init_twice_at event.now (state_of table.now) }
{
    match event {
        HalEvent::InitBegin => table.device().init_begun,
        _ => false,
    }
}

/// Whether a request begins where no configuration stands.
pub fn no_configuration(event: &HalEvent, table: &HalTable) -> bool
    ensures { result ≡ no_configuration_at event.now (state_of table.now) }
{
    match event {
        HalEvent::RequestBegin { .. } => !table.device().configured,
        _ => false,
    }
}

/// Whether a request has no target, or a configuration no output.
pub fn no_output(event: &HalEvent, table: &HalTable) -> bool
    ensures { result ≡ no_output_at event.now (state_of table.now) }
{
    match event {
        HalEvent::RequestBegin { targets, .. } => is_without_target(targets.as_slice()),
        HalEvent::ConfigureBegin { streams, .. } => has_no_output(streams.as_slice()),
        _ => false,
    }
}

/// Whether a request has no settings where none are known.
pub fn no_settings(event: &HalEvent, table: &HalTable) -> bool
    ensures { result ≡ no_settings_at event.now (state_of table.now) }
{
    match event {
        HalEvent::RequestBegin { same, .. } => *same && !table.device().settings,
        _ => false,
    }
}

/// Whether a configuration has two inputs.
pub fn two_inputs(event: &HalEvent, table: &HalTable) -> bool
    ensures { result ≡ two_inputs_at event.now (state_of table.now) }
{
    match event {
        HalEvent::ConfigureBegin { streams, .. } => has_two_inputs(streams.as_slice()),
        _ => false,
    }
}

/// Whether a configuration begins while requests are in flight.
pub fn configure_in_flight(event: &HalEvent, table: &HalTable) -> bool
    ensures { result ≡ configure_in_flight_at event.now (state_of table.now) }
{
    match event {
        HalEvent::ConfigureBegin { .. } => is_some_meant(Which::InFlight, event, table),
        _ => false,
    }
}

/// Whether a request or a configure is in call.
fn is_calling(table: &HalTable) -> bool
    ensures { result ≡ (is_requesting_at (state_of table.now) || table.now.device.configure.out) }
{
    table.is_requesting() || table.device().configure.out
}

fn is_in_other_call(device: &Device) -> bool
    ensures { result ≡ is_in_other_call_at device.now }
{
    device.opening.out
        || (device.init.out || (device.template.out || (device.flush.out || device.close.out)))
}

/// Whether a call begins while another one is out.
pub fn overlapping_calls(event: &HalEvent, table: &HalTable) -> bool
    ensures { result ≡ overlapping_calls_at event.now (state_of table.now) }
{
    match event {
        HalEvent::RequestBegin { .. } => is_calling(table),
        HalEvent::ConfigureBegin { .. } => is_calling(table),
        HalEvent::CloseBegin => is_calling(table) || is_in_other_call(table.device()),
        _ => false,
    }
}

/// Whether a call begins after a close began.
pub fn call_after_close(event: &HalEvent, table: &HalTable) -> bool
    ensures { result ≡ call_after_close_at event.now (state_of table.now) }
{
    match event {
        HalEvent::OpenBegin => false,
        _ => is_begin(event) && table.device().closing,
    }
}

// ---- requests

/// Whether a request's number isn't above those before it.
pub fn frame_number(event: &HalEvent, table: &HalTable) -> bool
    ensures { result ≡ frame_number_at event.now (state_of table.now) }
{
    match event {
        HalEvent::RequestBegin { frame, .. } => {
            u64::from(*frame) < table.device().top || table.is_called_from(*frame)
        }
        _ => false,
    }
}

/// Whether the target's buffer is held, or stands twice among the targets.
fn is_held_target(targets: &[HalTarget], table: &HalTable, target: &HalTarget) -> bool
    ensures { result ≡ is_held_target_at targets.now (state_of table.now) target.now }
{
    table.is_held(target.buffer) || is_twice_buffer(targets, target)
}

/// Whether the number is above what the device takes, unless that is 0.
fn is_past(most: Option<&StreamMax>, count: u64) -> bool
    ensures { (n : ℕ) → count ≡ min n u64.MAX → result ≡ is_past (option_copied most.entry) n }
{
    match most {
        Some(most) => 0 < most.max && u64::from(most.max) < count,
        None => false,
    }
}

/// Whether with the targets more buffers of the target's stream are held than the device takes.
fn is_too_many(targets: &[HalTarget], table: &HalTable, target: &HalTarget) -> bool
    ensures { result ≡ is_too_many_at targets.now (state_of table.now) target.now }
{
    let held = table.held_count(target.stream);
    let count = held.saturating_add(stream_count(target.stream, targets) as u64);
    is_past(
        find_most(table.device().most.as_slice(), target.stream),
        count,
    )
}

/// What a target of a request that begins may be at fault in.
#[derive(Clone, Copy)]
pub enum TargetFault {
    /// Its buffer is held, or asked for twice.
    Held,
    /// Another target is of its stream.
    Repeated,
    /// With the targets more buffers of its stream are held than the device takes.
    TooMany,
    /// Its stream isn't configured.
    Unknown,
}

/// Whether the target is at fault.
pub fn is_target_wrong(
    fault: TargetFault,
    targets: &[HalTarget],
    table: &HalTable,
    target: &HalTarget,
) -> bool
    ensures { result ≡ is_target_wrong fault targets.now (state_of table.now) target.now }
{
    match fault {
        TargetFault::Held => is_held_target(targets, table, target),
        TargetFault::Repeated => is_twice_stream(targets, target),
        TargetFault::TooMany => is_too_many(targets, table, target),
        TargetFault::Unknown => is_unknown_in(table.device().streams.as_slice(), target),
    }
}

fn is_some_target_wrong(fault: TargetFault, targets: &[HalTarget], table: &HalTable) -> bool
    ensures { result ≡ list_any (is_target_wrong fault targets.now (state_of table.now)) targets.now }
{
    targets
        .iter()
        .any(|target| is_target_wrong(fault, targets, table, target))
}

/// Whether a request begins with a target that is at fault.
pub fn has_wrong_target(fault: TargetFault, event: &HalEvent, table: &HalTable) -> bool
    ensures { result ≡ has_wrong_target fault event.now (state_of table.now) }
{
    match event {
        HalEvent::RequestBegin { targets, .. } => {
            is_some_target_wrong(fault, targets.as_slice(), table)
        }
        _ => false,
    }
}

// ---- what excuses a refusal

/// Whether the event breaks one of the rules on requests.
fn is_flawed(event: &HalEvent, table: &HalTable) -> bool
    ensures { result ≡ is_flawed_at event.now (state_of table.now) }
{
    ((init_order(event, table) || (no_configuration(event, table) || no_output(event, table)))
        || (no_settings(event, table)
            || (overlapping_calls(event, table) || call_after_close(event, table))))
        || ((frame_number(event, table)
            || (has_wrong_target(TargetFault::Held, event, table)
                || has_wrong_target(TargetFault::Repeated, event, table)))
            || (has_wrong_target(TargetFault::TooMany, event, table)
                || has_wrong_target(TargetFault::Unknown, event, table)))
}

/// Whether the targets or the configuration excuse a refusal, or a flush.
fn is_unfit(targets: &[HalTarget], device: &Device) -> bool
    ensures { result ≡ ((not (list_all (is_output_in device.now.streams) targets.now)
        || (has_no_output device.now.streams || has_two_inputs device.now.streams)) || device.now.flush.out) }
{
    let streams = device.streams.as_slice();
    (!are_outputs_in(streams, targets) || (has_no_output(streams) || has_two_inputs(streams)))
        || device.flush.out
}

/// Whether the begin of a request excuses its refusal.
pub fn is_excused(event: &HalEvent, table: &HalTable) -> bool
    ensures { result ≡ excused_at event.now (state_of table.now) }
{
    match event {
        HalEvent::RequestBegin {
            targets,
            no_handle,
            bad_settings,
            ..
        } => {
            (is_flawed(event, table) || (*no_handle || *bad_settings))
                || is_unfit(targets.as_slice(), table.device())
        }
        _ => true,
    }
}
