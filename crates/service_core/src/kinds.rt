//! Walks over the steps of a kind. Each finds the step with a number among those that are ready, or tells by how much
//! the number is past the last of them.
ghost use Rattle.std.specs.Prelude.{◌∷◌, [], filter};
ghost use Rattle.service_core.specs.Candidates.{is_ready_by, ready_in};
ghost use Rattle.service_state.specs.Serving.{IsServing};
ghost use Rattle.service_core.specs.Finding.{Finds};

use crate::frames::{OfFrame, OfRow, OfTarget, seek_rows};
use cam_types::BufferId;
use run_model::{Kind, StepName};
use service_state::ServiceState;

/// The steps of one kind.
#[inline(always)]
pub(crate) fn seek_kind(state: &ServiceState, kind: Kind, number: u64) -> Result<StepName, u64>
    requires { IsServing state.now }
    ensures { Finds (ready_in state.now.script state.now.parts kind) number result }
{
    match kind {
        Kind::Send => seek_step(state, StepName::Send, number),
        Kind::Release => seek_releases(state, number),
        Kind::Signal => seek_signals(state, number),
        Kind::Client => seek_step(state, StepName::Client, number),
        Kind::DropQueued => seek_step(state, StepName::DropQueued, number),
        Kind::Fail => seek_rows(state, OfRow::Frame(OfFrame::Fail), number),
        Kind::ReturnFailed => seek_rows(state, OfRow::Targets(OfTarget::ReturnFailed), number),
        Kind::Shutter => seek_step(state, StepName::Shutter, number),
        Kind::SensorDone => seek_rows(state, OfRow::Frame(OfFrame::SensorDone), number),
        Kind::Partial => seek_rows(state, OfRow::Frame(OfFrame::Partial), number),
        Kind::TakeFill => seek_rows(state, OfRow::Targets(OfTarget::TakeFill), number),
        Kind::FillDone => seek_rows(state, OfRow::Targets(OfTarget::FillDone), number),
        Kind::Deliver => seek_rows(state, OfRow::Targets(OfTarget::Deliver), number),
        Kind::Early => seek_rows(state, OfRow::Targets(OfTarget::Early), number),
        Kind::Finish => seek_rows(state, OfRow::Targets(OfTarget::Finish), number),
    }
}

/// One step, which is ready or isn't.
#[inline(always)]
pub(crate) fn seek_step(state: &ServiceState, step: StepName, number: u64) -> Result<StepName, u64>
    requires { IsServing state.now }
    ensures { Finds (filter (is_ready_by state.now.script state.now.parts) (step ∷ [])) number result }
{
    if !state.is_ready(step) {
        return Err(number);
    }
    if number == 0 {
        Ok(step)
    } else {
        Err(number - 1)
    }
}

/// A release for each of the configuration's buffers.
fn seek_releases(state: &ServiceState, number: u64) -> Result<StepName, u64>
    requires { IsServing state.now }
    ensures { Finds (ready_in state.now.script state.now.parts Kind.Release) number result }
{
    let first = state.first_buffer();
    let count = state.buffer_count();
    let mut left = number;
    for place in 0..count {
        match seek_step(state, StepName::Release(BufferId(first + place)), left) {
            Ok(step) => return Ok(step),
            Err(rest) => left = rest,
        }
    }
    Err(left)
}

/// A signal for each fence that was released and isn't signalled.
fn seek_signals(state: &ServiceState, number: u64) -> Result<StepName, u64>
    ensures { Finds (ready_in state.now.script state.now.parts Kind.Signal) number result }
{
    let count = u64::from(state.pending());
    if number >= count {
        return Err(number - count);
    }
    match state.pending_at(number as u32) {
        Some(fence) => Ok(StepName::Signal(fence)),
        None => unreachable!(),
    }
}
