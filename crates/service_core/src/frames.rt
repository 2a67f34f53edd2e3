//! Walks over the steps of open frames, the oldest frame first, and in a frame over its targets. They are inlined at each
//! kind of step, so that of a row just that is read which the kind asks of it.
ghost use Rattle.std.specs.Prelude.{◌≡◌, ◌<◌, ◌∷◌, [], Some, filter, length, map, option_to_list, slice_get};
ghost use Rattle.cam_types.specs.Four.{four_list};
ghost use Rattle.cam_types.specs.declared.row.TargetView.{TargetView as SomeTarget};
ghost use Rattle.device_rows.specs.Rows.{row_at};
ghost use Rattle.service_core.specs.Candidates.{is_ready_by};
ghost use Rattle.service_state.specs.Serving.{IsServing};
ghost use Rattle.service_core.specs.Finding.{Finds};
ghost use Rattle.service_core.specs.Walks.{frame_step, steps_of_rows, target_step};

use crate::kinds::seek_step;
use crate::looks::{may_have, may_have_some};
use cam_types::{Four, FrameNo, RowView, StreamIx, TargetView};
use run_model::StepName;
use service_state::ServiceState;

/// The kinds of steps of a frame.
#[derive(Clone, Copy)]
pub(crate) enum OfFrame {
    Fail,
    SensorDone,
    Partial,
}

/// The kinds of steps of a frame's buffer for a stream.
#[derive(Clone, Copy)]
pub(crate) enum OfTarget {
    ReturnFailed,
    TakeFill,
    FillDone,
    Deliver,
    Early,
    Finish,
}

/// The kinds of steps of an open frame: its own, or those of its buffers.
#[derive(Clone, Copy)]
pub(crate) enum OfRow {
    Frame(OfFrame),
    Targets(OfTarget),
}

/// The steps of the kind of each open frame.
#[inline(always)]
pub(crate) fn seek_rows(state: &ServiceState, kind: OfRow, number: u64) -> Result<StepName, u64>
    requires { IsServing state.now }
    ensures { Finds (filter (is_ready_by state.now.script state.now.parts)
        (steps_of_rows kind state.now.parts.rows)) number result }
{
    let count = state.open_frames();
    let mut left = number;
    for place in 0..count {
        let row = row_at(state, place);
        let sought = match kind {
            OfRow::Frame(own) => seek_frame(state, own, row, left),
            OfRow::Targets(each) => seek_row(state, each, row, left),
        };
        match sought {
            Ok(step) => return Ok(step),
            Err(rest) => left = rest,
        }
    }
    Err(left)
}

/// The frame's step of the kind, which isn't asked for where the row speaks against it.
#[inline(always)]
fn seek_frame(
    state: &ServiceState,
    kind: OfFrame,
    row: RowView,
    number: u64,
) -> Result<StepName, u64>
    requires serving { IsServing state.now }
    requires own { row_at row.frame.0 state.now.parts.rows ≡ Some row }
    ensures { Finds (filter (is_ready_by state.now.script state.now.parts) (frame_step kind row.frame ∷ []))
        number result }
{
    if !may_have(state.script(), kind, row) {
        return Err(number);
    }
    seek_step(state, frame_step(kind, row.frame), number)
}

/// The step of the kind for each target of a frame. None is asked for where the row speaks against each.
#[inline(always)]
fn seek_row(
    state: &ServiceState,
    kind: OfTarget,
    row: RowView,
    number: u64,
) -> Result<StepName, u64>
    requires serving { IsServing state.now }
    requires own { row_at row.frame.0 state.now.parts.rows ≡ Some row }
    ensures { Finds (filter (is_ready_by state.now.script state.now.parts)
        (map (λ (target : SomeTarget). target_step kind row.frame target.stream) (four_list row.targets)))
        number result }
{
    if !may_have_some(state.script(), kind, row) {
        return Err(number);
    }
    let Four { a, b, c, d } = row.targets;
    let mut left = number;
    for target in [a, b, c, d] {
        match seek_target(state, kind, row.frame, target, left) {
            Ok(step) => return Ok(step),
            Err(rest) => left = rest,
        }
    }
    Err(left)
}

/// The step of the kind for a target, where there is one.
fn seek_target(
    state: &ServiceState,
    kind: OfTarget,
    frame: FrameNo,
    target: Option<TargetView>,
    number: u64,
) -> Result<StepName, u64>
    requires { IsServing state.now }
    ensures { Finds (filter (is_ready_by state.now.script state.now.parts)
        (map (λ (target : SomeTarget). target_step kind frame target.stream) (option_to_list target)))
        number result }
{
    match target {
        Some(target) => seek_step(state, target_step(kind, frame, target.stream), number),
        None => Err(number),
    }
}

/// The row at a place at which one stands. It is the row that its frame finds.
fn row_at(state: &ServiceState, place: u32) -> RowView
    requires serving { IsServing state.now }
    requires stands { place < length state.now.parts.rows }
    ensures at { slice_get state.now.parts.rows place ≡ Some result }
    ensures own { row_at result.frame.0 state.now.parts.rows ≡ Some result }
{
    match state.row(place) {
        Some(row) => row,
        None => unreachable!(),
    }
}

/// A frame's step of the kind.
fn frame_step(kind: OfFrame, frame: FrameNo) -> StepName
    ensures { result ≡ frame_step kind frame }
{
    match kind {
        OfFrame::Fail => StepName::Fail(frame),
        OfFrame::SensorDone => StepName::SensorDone(frame),
        OfFrame::Partial => StepName::Partial(frame),
    }
}

/// The step of the kind of a frame's buffer for a stream.
fn target_step(kind: OfTarget, frame: FrameNo, stream: StreamIx) -> StepName
    ensures { result ≡ target_step kind frame stream }
{
    match kind {
        OfTarget::ReturnFailed => StepName::ReturnFailed(frame, stream),
        OfTarget::TakeFill => StepName::TakeFill(frame, stream),
        OfTarget::FillDone => StepName::FillDone(frame, stream),
        OfTarget::Deliver => StepName::Deliver(frame, stream),
        OfTarget::Early => StepName::Early(frame, stream),
        OfTarget::Finish => StepName::Finish(frame, stream),
    }
}
