//! Which line is due of each step, from a plan and the lines so far, the oldest first.
ghost use Rattle.std.specs.Prelude.{◌≡◌, ◌^◌, ◌<◌, ◌||◌, Some, length, reverse};
ghost use Rattle.std.specs.Option.{option_map};
ghost use Rattle.reprocess_model.specs.declared.plan.ReCommand.TheVariants.{Flush as AFlush};
ghost use Rattle.reprocess_model.specs.Due.{all_returned as all_returned_in, client_due as client_due_in, digest_of, drop_due as drop_due_in, error_due as error_due_in, failed_due as failed_due_in, fill_due as fill_due_in, has_out as has_out_in, has_outs as has_outs_in, input_due as input_due_in, is_faulty as is_faulty_in, is_next_for as is_next_in, line_of_command, may_fail as may_fail_in, may_fill as may_fill_in, out_for as out_for_in, take_due as take_due_in};
ghost use Rattle.reprocess_model.specs.Past.{call_count as calls_in, has_error as error_in, is_by as is_by_in, is_returned as returned_in};

use crate::home::{all_inputs_home, least_input, least_output, least_queued};
use crate::reads::{
    call_count, has_error, has_fill, has_input, input_holder, input_of, is_returned, is_stopped,
    is_stopping, is_taken, output_holder, output_of,
};
use cam_types::{BufferId, Four, FrameNo, StreamIx, StreamSpec};
use reprocess_model::{InputId, Plan, ReCommand, ReEntry, ReOut};

/// The line of a flush that is the next command.
fn flush_line(lines: &[ReEntry], index: u32) -> Option<ReEntry>
    requires short { length lines.now < 2 ^ 32 }
    requires index { index ≡ calls_in (reverse lines.now) }
    ensures { result ≡ line_of_command (reverse lines.now) (Some AFlush) }
{
    if !is_stopping(lines) {
        Some(ReEntry::BeginFlush)
    } else if least_queued(lines).is_none() && all_inputs_home(lines) {
        Some(ReEntry::Flushed { index })
    } else {
        None
    }
}

/// The line of the next command.
pub fn client_due(plan: &Plan, lines: &[ReEntry]) -> Option<ReEntry>
    requires { length lines.now < 2 ^ 32 }
    ensures { result ≡ client_due_in plan.now (reverse lines.now) }
{
    let index = call_count(lines) as u32;
    match plan.commands.get(index) {
        Some(ReCommand::Request(_)) => Some(ReEntry::Called { index }),
        Some(ReCommand::Flush) => flush_line(lines, index),
        None => None,
    }
}

/// The least buffer at home for an output that is there.
fn out_for(lines: &[ReEntry], spec: Option<StreamSpec>, output: u8) -> Option<ReOut>
    requires { output < 4 }
    ensures { result ≡ out_for_in output spec (reverse lines.now) }
{
    match spec {
        Some(_) => match least_output(lines, output) {
            Some(buffer) => Some(ReOut {
                stream: StreamIx(output),
                buffer: BufferId(buffer),
            }),
            None => None,
        },
        None => None,
    }
}

fn has_out(lines: &[ReEntry], spec: Option<StreamSpec>, output: u8) -> bool
    requires { output < 4 }
    ensures { result ≡ has_out_in output spec (reverse lines.now) }
{
    match spec {
        Some(_) => least_output(lines, output).is_some(),
        None => true,
    }
}

/// Whether each output has a buffer at home.
fn has_outs(plan: &Plan, lines: &[ReEntry]) -> bool
    ensures { result ≡ has_outs_in plan.now (reverse lines.now) }
{
    has_out(lines, plan.outputs.a, 0)
        && (has_out(lines, plan.outputs.b, 1)
            && (has_out(lines, plan.outputs.c, 2) && has_out(lines, plan.outputs.d, 3)))
}

/// The line of the next take.
pub fn take_due(plan: &Plan, lines: &[ReEntry]) -> Option<ReEntry>
    requires { length lines.now < 2 ^ 32 }
    ensures { result ≡ take_due_in plan.now (reverse lines.now) }
{
    let frame = least_queued(lines)?;
    let input = least_input(lines)?;
    if !is_stopping(lines) && has_outs(plan, lines) {
        Some(ReEntry::Take {
            frame: FrameNo(frame),
            input: InputId(input),
            outputs: Four {
                a: out_for(lines, plan.outputs.a, 0),
                b: out_for(lines, plan.outputs.b, 1),
                c: out_for(lines, plan.outputs.c, 2),
                d: out_for(lines, plan.outputs.d, 3),
            },
        })
    } else {
        None
    }
}

/// The line of the next drop.
pub fn drop_due(lines: &[ReEntry]) -> Option<ReEntry>
    requires { length lines.now < 2 ^ 32 }
    ensures { result ≡ drop_due_in (reverse lines.now) }
{
    let frame = least_queued(lines)?;
    if is_stopping(lines) {
        Some(ReEntry::Dropped {
            frame: FrameNo(frame),
        })
    } else {
        None
    }
}

/// Whether a request shall fail.
fn is_faulty(plan: &Plan, request: u32) -> bool
    ensures { result ≡ is_faulty_in plan.now request }
{
    plan.faults
        .as_slice()
        .iter()
        .any(|fault| fault.0 == request)
}

/// Whether a request may have its error.
fn may_fail(plan: &Plan, lines: &[ReEntry], request: u32) -> bool
    ensures { result ≡ may_fail_in plan.now (reverse lines.now) request }
{
    is_taken(lines, request)
        && (!has_error(lines, request)
            && (!has_fill(lines, request)
                && (!has_input(lines, request)
                    && (is_faulty(plan, request) || is_stopped(lines, request)))))
}

/// The error of a request.
pub fn error_due(plan: &Plan, lines: &[ReEntry], frame: FrameNo) -> Option<ReEntry>
    ensures { result ≡ error_due_in plan.now (reverse lines.now) frame.0 }
{
    if may_fail(plan, lines, frame.0) {
        Some(ReEntry::Error { frame })
    } else {
        None
    }
}

/// Whether the request is the one that holds a buffer.
fn is_by(request: u32, holder: Option<u32>) -> bool
    ensures { result ≡ is_by_in request holder }
{
    match holder {
        Some(other) => other == request,
        None => false,
    }
}

/// The return of a buffer of a request that has its error.
pub fn failed_due(lines: &[ReEntry], frame: FrameNo, stream: StreamIx) -> Option<ReEntry>
    ensures { result ≡ failed_due_in (reverse lines.now) frame.0 stream.0 }
{
    let buffer = output_of(lines, frame.0, stream.0)?;
    if has_error(lines, frame.0) && is_by(frame.0, output_holder(lines, buffer)) {
        Some(ReEntry::Failed {
            frame,
            stream,
            buffer: BufferId(buffer),
        })
    } else {
        None
    }
}

/// Whether the output of each smaller request that was taken came back, or the request has its error.
fn is_next_for(lines: &[ReEntry], request: u32, output: u8) -> bool
    ensures { result ≡ is_next_in (reverse lines.now) request output }
{
    for other in 0..request {
        if is_taken(lines, other) && !is_settled(lines, other, output) {
            return false;
        }
    }
    true
}

fn is_settled(lines: &[ReEntry], request: u32, output: u8) -> bool
    ensures { result ≡ (returned_in request output (reverse lines.now) || error_in request (reverse lines.now)) }
{
    is_returned(lines, request, output) || has_error(lines, request)
}

/// Whether the buffer of a request for an output may come back with its picture.
fn may_fill(plan: &Plan, lines: &[ReEntry], request: u32, output: u8, buffer: u32) -> bool
    ensures { result ≡ may_fill_in plan.now (reverse lines.now) request output buffer }
{
    is_by(request, output_holder(lines, buffer))
        && (!has_error(lines, request)
            && (!is_faulty(plan, request) && is_next_for(lines, request, output)))
}

/// The buffer that comes back with a picture of a request for an output.
pub fn fill_buffer(
    plan: &Plan,
    lines: &[ReEntry],
    frame: FrameNo,
    stream: StreamIx,
) -> Option<BufferId>
    ensures { fill_due_in plan.now (reverse lines.now) frame.0 stream.0 ≡
        option_map (λ buffer. ReEntry.Fill frame stream buffer (digest_of plan.now frame.0 stream.0)) result }
{
    let buffer = output_of(lines, frame.0, stream.0)?;
    if may_fill(plan, lines, frame.0, stream.0, buffer) {
        Some(BufferId(buffer))
    } else {
        None
    }
}

/// Whether each output of a request came back.
fn all_returned(plan: &Plan, lines: &[ReEntry], request: u32) -> bool
    ensures { result ≡ all_returned_in plan.now (reverse lines.now) request }
{
    (plan.outputs.a.is_none() || is_returned(lines, request, 0))
        && ((plan.outputs.b.is_none() || is_returned(lines, request, 1))
            && ((plan.outputs.c.is_none() || is_returned(lines, request, 2))
                && (plan.outputs.d.is_none() || is_returned(lines, request, 3))))
}

/// The return of the input of a request.
pub fn input_due(plan: &Plan, lines: &[ReEntry], frame: FrameNo) -> Option<ReEntry>
    ensures { result ≡ input_due_in plan.now (reverse lines.now) frame.0 }
{
    let input = input_of(lines, frame.0)?;
    if is_by(frame.0, input_holder(lines, input)) && all_returned(plan, lines, frame.0) {
        Some(ReEntry::Input {
            frame,
            input: InputId(input),
        })
    } else {
        None
    }
}
