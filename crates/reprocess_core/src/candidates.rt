//! All steps of a plan, and which of them are ready.
ghost use Rattle.std.specs.Prelude.{◌≡◌, ◌+◌, ◌*◌, ◌<◌, ◌≤◌, ◌++◌, [], filter, length, OnOk, vec_capacity, vec_len, IfOk};
ghost use Rattle.reprocess_model.specs.Run.{candidates as candidates_of, for_outputs, for_requests, is_ready, steps};
ghost use Rattle.reprocess_core.specs.Device.{output_step, request_step};

use crate::Course;
use cam_types::{FrameNo, NoMemory, StreamIx};
use reprocess_model::ReStepName;
use std::alloc::Global;

/// The kinds of steps of a request.
#[derive(Clone, Copy)]
pub enum OfRequest {
    Fail,
    ReturnInput,
}

/// The kinds of steps of a request's output.
#[derive(Clone, Copy)]
pub enum OfOutput {
    ReturnFailed,
    ReturnFilled,
}

fn request_step(kind: OfRequest, frame: FrameNo) -> ReStepName
    ensures { result ≡ request_step kind frame }
{
    match kind {
        OfRequest::Fail => ReStepName::Fail(frame),
        OfRequest::ReturnInput => ReStepName::ReturnInput(frame),
    }
}

fn output_step(kind: OfOutput, frame: FrameNo, stream: StreamIx) -> ReStepName
    ensures { result ≡ output_step kind frame stream }
{
    match kind {
        OfOutput::ReturnFailed => ReStepName::ReturnFailed(frame, stream),
        OfOutput::ReturnFilled => ReStepName::ReturnFilled(frame, stream),
    }
}

/// Adds the step of the kind for each of so many requests.
fn push_requests(steps: &mut Vec<ReStepName>, kind: OfRequest, count: u32) -> Result<(), NoMemory>
    ensures { OnOk result (steps.new.items ≡ steps.old.items ++ for_requests (request_step kind) count) }
{
    for request in 0..count {
        steps.push(request_step(kind, FrameNo(request)))?;
    }
    Ok(())
}

/// Adds the steps of the kind for each of so many requests, one for each of three outputs.
fn push_outputs(steps: &mut Vec<ReStepName>, kind: OfOutput, count: u32) -> Result<(), NoMemory>
    ensures { OnOk result (steps.new.items ≡ steps.old.items ++ for_outputs (output_step kind) count) }
{
    for request in 0..count {
        steps.push(output_step(kind, FrameNo(request), StreamIx(0)))?;
        steps.push(output_step(kind, FrameNo(request), StreamIx(1)))?;
        steps.push(output_step(kind, FrameNo(request), StreamIx(2)))?;
    }
    Ok(())
}

/// All steps of so many requests, in the order of candidates.
pub fn all_steps(alloc: Global, count: u32) -> Result<Vec<ReStepName>, NoMemory>
    ensures { IfOk result (λ all. all.items ≡ steps count) }
{
    let mut all = Vec::new(alloc);
    all.push(ReStepName::TakeNext)?;
    all.push(ReStepName::Client)?;
    all.push(ReStepName::DropNext)?;
    push_requests(&mut all, OfRequest::Fail, count)?;
    push_outputs(&mut all, OfOutput::ReturnFailed, count)?;
    push_outputs(&mut all, OfOutput::ReturnFilled, count)?;
    push_requests(&mut all, OfRequest::ReturnInput, count)?;
    Ok(all)
}

/// The steps that are ready, in the order of all. It takes no memory: there is room for all.
pub fn collect_ready(course: &Course, all: &[ReStepName], ready: &mut Vec<ReStepName>)
    requires { length all.now ≤ vec_capacity ready.old }
    ensures items { ready.new.items ≡ filter (is_ready course.now.plan course.now.past) all.now }
    ensures room { vec_capacity ready.new ≡ vec_capacity ready.old }
{
    ready.clear();
    for step in all {
        if course.is_ready(*step) {
            ready.push_reserved(*step);
        }
    }
}
