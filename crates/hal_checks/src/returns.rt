//! The rules that bind the device where a call returns: whether an event breaks them.
ghost use Rattle.std.specs.Prelude.{◌≡◌, ◌&&◌, ◌||◌, not, option_copied};
ghost use Rattle.std.specs.List.{list_any};
ghost use Rattle.hal_model.specs.Device.{is_idle_most, is_unnamed};
ghost use Rattle.hal_model.specs.Words.{is_no_device};
ghost use Rattle.hal_rows.specs.Judged.{accepted_before_init_at, accepted_dead_at, accepted_init_twice_at, accepted_no_output_at, accepted_no_settings_at, accepted_two_inputs_at, accepted_unknown_stream_at, is_row_without_target, is_target_unknown_in, no_max_buffers_at, of_called, of_found, refused_after_callback_at, refused_request_at};
ghost use Rattle.hal_rows.specs.Row.{is_row_in_call};
ghost use Rattle.hal_table.specs.State.{state_of};

use crate::stream::{
    has_no_output, has_two_inputs, is_idle_most, is_row_without_target, is_target_unknown_in,
    is_unnamed,
};
use hal_model::{HalError, HalEvent, HalStream, StreamMax};
use hal_row::row::is_in_call;
use hal_row::word::is_no_device;
use hal_rows::{Device, Row, TargetRow};
use hal_table::HalTable;

// ---- calls that are accepted

fn is_called_early(row: Option<&Row>) -> bool
    ensures { result ≡ of_found (λ r. is_row_in_call r && not r.initialized) (option_copied row.entry) }
{
    match row {
        Some(row) => is_in_call(row) && !row.initialized,
        None => false,
    }
}

/// Whether a call is accepted at whose begin the device wasn't initialized.
pub fn accepted_before_init(event: &HalEvent, table: &HalTable) -> bool
    ensures { result ≡ accepted_before_init_at event.now (state_of table.now) }
{
    match event {
        HalEvent::TemplateOk { .. } => !table.device().template.initialized,
        HalEvent::ConfigureOk { .. } => !table.device().configure.initialized,
        HalEvent::RequestOk { frame } => is_called_early(table.row_for(*frame)),
        HalEvent::FlushOk => !table.device().flush.initialized,
        _ => false,
    }
}

/// Whether initialize is accepted where the device was initialized.
pub fn accepted_init_twice(event: &HalEvent, table: &HalTable) -> bool
    ensures { result ≡ accepted_init_twice_at event.now (state_of table.now) }
{
    match event {
        HalEvent::InitOk => table.device().init.initialized,
        _ => false,
    }
}

fn is_called_dead(row: Option<&Row>) -> bool
    ensures { result ≡ of_found (λ r. is_row_in_call r && r.dead) (option_copied row.entry) }
{
    match row {
        Some(row) => is_in_call(row) && row.dead,
        None => false,
    }
}

/// Whether a call is accepted at whose begin the device was dead.
pub fn accepted_dead(event: &HalEvent, table: &HalTable) -> bool
    ensures { result ≡ accepted_dead_at event.now (state_of table.now) }
{
    match event {
        HalEvent::InitOk => table.device().init.dead,
        HalEvent::TemplateOk { .. } => table.device().template.dead,
        HalEvent::ConfigureOk { .. } => table.device().configure.dead,
        HalEvent::RequestOk { frame } => is_called_dead(table.row_for(*frame)),
        HalEvent::FlushOk => table.device().flush.dead,
        _ => false,
    }
}

fn is_called_without_target(row: Option<&Row>) -> bool
    ensures { result ≡ of_found (λ r. is_row_in_call r && is_row_without_target r) (option_copied row.entry) }
{
    match row {
        Some(row) => is_in_call(row) && is_row_without_target(row.targets.as_slice()),
        None => false,
    }
}

/// Whether a request without a target is accepted, or a configuration without an output.
pub fn accepted_no_output(event: &HalEvent, table: &HalTable) -> bool
    ensures { result ≡ accepted_no_output_at event.now (state_of table.now) }
{
    match event {
        HalEvent::ConfigureOk { .. } => has_no_output(table.device().asked.as_slice()),
        HalEvent::RequestOk { frame } => is_called_without_target(table.row_for(*frame)),
        _ => false,
    }
}

/// Whether a configuration with two inputs is accepted.
pub fn accepted_two_inputs(event: &HalEvent, table: &HalTable) -> bool
    ensures { result ≡ accepted_two_inputs_at event.now (state_of table.now) }
{
    match event {
        HalEvent::ConfigureOk { .. } => has_two_inputs(table.device().asked.as_slice()),
        _ => false,
    }
}

fn is_called_without_settings(settings: bool, row: Option<&Row>) -> bool
    ensures { result ≡ of_found (λ r. is_row_in_call r && (r.same && not settings)) (option_copied row.entry) }
{
    match row {
        Some(row) => is_in_call(row) && (row.same && !settings),
        None => false,
    }
}

/// Whether a request without settings is accepted where none are known.
pub fn accepted_no_settings(event: &HalEvent, table: &HalTable) -> bool
    ensures { result ≡ accepted_no_settings_at event.now (state_of table.now) }
{
    match event {
        HalEvent::RequestOk { frame } => {
            is_called_without_settings(table.device().settings, table.row_for(*frame))
        }
        _ => false,
    }
}

fn is_some_unknown(streams: &[HalStream], targets: &[TargetRow]) -> bool
    ensures { result ≡ list_any (is_target_unknown_in streams.now) targets.now }
{
    targets
        .iter()
        .any(|target| is_target_unknown_in(streams, target))
}

fn is_called_unknown(streams: &[HalStream], row: Option<&Row>) -> bool
    ensures { result ≡ of_found (λ r. is_row_in_call r && list_any (is_target_unknown_in streams.now) r.targets)
        (option_copied row.entry) }
{
    match row {
        Some(row) => is_in_call(row) && is_some_unknown(streams, row.targets.as_slice()),
        None => false,
    }
}

/// Whether a request is accepted that has a target of a stream that isn't configured.
pub fn accepted_unknown_stream(event: &HalEvent, table: &HalTable) -> bool
    ensures { result ≡ accepted_unknown_stream_at event.now (state_of table.now) }
{
    match event {
        HalEvent::RequestOk { frame } => {
            is_called_unknown(table.device().streams.as_slice(), table.row_for(*frame))
        }
        _ => false,
    }
}

fn is_some_idle(streams: &[HalStream], most: &[StreamMax]) -> bool
    ensures { result ≡ list_any (is_idle_most streams.now) most.now }
{
    most.iter().any(|named| is_idle_most(streams, named))
}

fn is_some_unnamed(most: &[StreamMax], streams: &[HalStream]) -> bool
    ensures { result ≡ list_any (is_unnamed most.now) streams.now }
{
    streams.iter().any(|stream| is_unnamed(most, stream))
}

/// Whether a configuration is accepted without a number for each of its streams, or with another one.
pub fn no_max_buffers(event: &HalEvent, table: &HalTable) -> bool
    ensures { result ≡ no_max_buffers_at event.now (state_of table.now) }
{
    match event {
        HalEvent::ConfigureOk { most } => {
            let asked = table.device().asked.as_slice();
            is_some_idle(asked, most.as_slice()) || is_some_unnamed(most.as_slice(), asked)
        }
        _ => false,
    }
}

// ---- requests that are refused

fn is_refused_wrongly(error: &HalError, device: &Device, row: Option<&Row>) -> bool
    ensures { result ≡ of_found (λ r. is_row_in_call r
        && (not (is_no_device error.now) && not ((device.now.dead || r.entered) || r.excused)))
        (option_copied row.entry) }
{
    match row {
        Some(row) => {
            is_in_call(row)
                && (!is_no_device(error) && !((device.dead || row.entered) || row.excused))
        }
        None => false,
    }
}

/// Whether a request is refused that nothing excuses.
pub fn refused_request(event: &HalEvent, table: &HalTable) -> bool
    ensures { result ≡ refused_request_at event.now (state_of table.now) }
{
    match event {
        HalEvent::RequestError { frame, error } => {
            is_refused_wrongly(error, table.device(), table.row_for(*frame))
        }
        _ => false,
    }
}

fn is_refused_late(error: &HalError, row: Option<&Row>) -> bool
    ensures { result ≡ of_found (λ r. is_row_in_call r && (not (is_no_device error.now) && r.said))
        (option_copied row.entry) }
{
    match row {
        Some(row) => is_in_call(row) && (!is_no_device(error) && row.said),
        None => false,
    }
}

/// Whether a request is refused of which the device said something.
pub fn refused_after_callback(event: &HalEvent, table: &HalTable) -> bool
    ensures { result ≡ refused_after_callback_at event.now (state_of table.now) }
{
    match event {
        HalEvent::RequestError { frame, error } => is_refused_late(error, table.row_for(*frame)),
        _ => false,
    }
}
