//! What the row of an open frame tells at one look of its next steps. Those that it speaks against aren't asked for.
ghost use Rattle.std.specs.Prelude.{◌≡◌, option_to_list};
ghost use Rattle.std.specs.List.{list_any};
ghost use Rattle.device_rows.specs.Jobs.{is_fill_out};
ghost use Rattle.service_core.specs.Looks.{fits, may_have, may_have_some};

use crate::frames::{OfFrame, OfTarget};
use cam_types::{Four, RowView, Script, TargetState, TargetView};
use device_rows::{is_home, is_same_state, is_sensor_out};

/// Whether the frame may have its step of the kind, as far as its row tells.
#[inline(always)]
pub(crate) fn may_have(script: &Script, kind: OfFrame, row: RowView) -> bool
    ensures { result ≡ may_have script.now kind row }
{
    match kind {
        OfFrame::Fail => row.stopped || script.faults.len() != 0,
        OfFrame::SensorDone => is_sensor_out(row.sensor),
        OfFrame::Partial => row.shutter.is_some() && row.awaits_metadata(),
    }
}

/// Whether one of the frame's buffers may have its step of the kind, as far as the row tells.
#[inline(always)]
pub(crate) fn may_have_some(script: &Script, kind: OfTarget, row: RowView) -> bool
    ensures { result ≡ may_have_some script.now kind row }
{
    let Four { a, b, c, d } = row.targets;
    fits_at(script, kind, row, a)
        || (fits_at(script, kind, row, b)
            || (fits_at(script, kind, row, c) || fits_at(script, kind, row, d)))
}

fn fits_at(script: &Script, kind: OfTarget, row: RowView, target: Option<TargetView>) -> bool
    ensures { result ≡ list_any (fits script.now kind row) (option_to_list target) }
{
    match target {
        Some(target) => fits(script, kind, row, target),
        None => false,
    }
}

/// Whether the buffer may have its step of the kind, as far as its target and the row tell.
#[inline(always)]
fn fits(script: &Script, kind: OfTarget, row: RowView, target: TargetView) -> bool
    ensures { result ≡ fits script.now kind row target }
{
    match kind {
        OfTarget::ReturnFailed => row.request_error || target.announced,
        OfTarget::TakeFill => is_home(row.sensor)
            && is_same_state(target.state, TargetState::Waiting),
        OfTarget::FillDone => is_with_stage(target.state),
        OfTarget::Deliver => is_same_state(target.state, TargetState::Filled),
        OfTarget::Early => script.early && is_same_state(target.state, TargetState::Out),
        OfTarget::Finish => is_same_state(target.state, TargetState::EarlyFilled),
    }
}

/// Whether a stage fills the buffer.
fn is_with_stage(state: TargetState) -> bool
    ensures { result ≡ is_fill_out state }
{
    matches!(state, TargetState::Out | TargetState::ReturnedEarly)
}
