//! Which step a row is ready for.
ghost use Rattle.std.specs.Prelude.{◌≡◌, ◌&&◌, ◌||◌, not};
ghost use Rattle.device_rows.specs.Ready.{is_home, is_sensor_out, is_sound, is_same_state, may_expose, may_return_failed};

use crate::fault::{has_buffer_fault, has_device_fault, has_request_fault};
use cam_types::{Fault, RowView, SensorPlace, TargetState, TargetView};

/// Whether nothing stands against the row's exposure: no stop, and no failure of the device at it.
pub fn may_expose(faults: &[Fault], row: RowView) -> bool
    ensures { result ≡ may_expose faults.now row }
{
    !row.stopped && !has_device_fault(faults, row.frame)
}

/// Whether neither the frame nor its buffer for the target has failed or will.
pub fn is_sound(faults: &[Fault], row: RowView, target: TargetView) -> bool
    ensures { result ≡ is_sound faults.now row target }
{
    (!has_request_fault(faults, row.frame) && !has_buffer_fault(faults, row.frame, target.stream))
        && (!row.request_error && !target.announced)
}

/// Whether a buffer is in the state.
pub fn is_same_state(state: TargetState, wanted: TargetState) -> bool
    ensures { result ≡ is_same_state state wanted }
{
    matches!(
        (state, wanted),
        (TargetState::Waiting, TargetState::Waiting)
            | (TargetState::Out, TargetState::Out)
            | (TargetState::Filled, TargetState::Filled)
            | (TargetState::EarlyFilled, TargetState::EarlyFilled)
    )
}

/// Whether the readout is home.
pub fn is_home(place: SensorPlace) -> bool
    ensures { result ≡ is_home place }
{
    matches!(place, SensorPlace::Home)
}

/// Whether the sensor exposes the frame.
pub fn is_sensor_out(place: SensorPlace) -> bool
    ensures { result ≡ is_sensor_out place }
{
    matches!(place, SensorPlace::Out)
}

/// Whether the target's buffer may come back in error: its frame failed whole or its error is announced, and neither
/// the sensor nor a stage has it.
pub fn may_return_failed(row: RowView, target: TargetView) -> bool
    ensures { result ≡ may_return_failed row target }
{
    (row.request_error || target.announced)
        && (!is_sensor_out(row.sensor)
            && (is_same_state(target.state, TargetState::Waiting)
                || is_same_state(target.state, TargetState::Filled)))
}
