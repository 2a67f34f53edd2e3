//! The steps, over the run, the places of inputs and the memory of outputs.
ghost use Rattle.std.specs.Prelude.{◌≡◌, ◌≤◌, IsTrue, None, Some, is_some, length, not, vec_capacity};
ghost use Rattle.reprocess_model.specs.Due.{due};
ghost use Rattle.reprocess_model.specs.Places.{at_place};
ghost use Rattle.reprocess_model.specs.Plan.{requests};
ghost use Rattle.reprocess_model.specs.Run.{chosen, is_complete, is_ready, steps};
ghost use Rattle.reprocess_core.specs.State.{with_line};
ghost use Rattle.reprocess_core.specs.Device.{is_plain};
ghost use Rattle.reprocess_core.specs.Inputs.{ArePlaces};

use crate::Course;
use crate::candidates::collect_ready;
use crate::input::{Place, put, take_ticket, ticket_at};
use crate::memory::OutputMemory;
use crate::output::OutputBlock;
use crate::picture::draw_into;
use cam_types::{FrameNo, Readout, StreamIx, StreamSpec};
use reprocess_model::{Plan, ReEntry, ReStepName, an_unfinished_run_has_a_candidate};

/// The step that a pick chooses. It takes no memory.
pub fn choose(
    course: &Course,
    all: &[ReStepName],
    ready: &mut Vec<ReStepName>,
    pick: u32,
) -> ReStepName
    requires all { all.now ≡ steps (length (requests course.now.plan.commands)) }
    requires room { length all.now ≤ vec_capacity ready.old }
    requires unfinished { IsTrue (not (is_complete course.now.plan course.now.past)) }
    ensures step { chosen course.now.plan course.now.past pick ≡ Some result }
    ensures room { vec_capacity ready.new ≡ vec_capacity ready.old }
{
    an_unfinished_run_has_a_candidate();
    let _plan = course.plan();
    collect_ready(course, all, ready);
    ready[pick as usize % ready.len()]
}

/// The line that is due of a step that needs no picture.
fn plain_due(course: &Course, step: ReStepName) -> Option<ReEntry>
    requires { IsTrue (is_plain step) }
    ensures { result ≡ due course.now.plan course.now.past step }
{
    match step {
        ReStepName::Client => course.client_due(),
        ReStepName::DropNext => course.drop_due(),
        ReStepName::Fail(frame) => course.error_due(frame),
        ReStepName::ReturnFailed(frame, stream) => course.failed_due(frame, stream),
        _ => unreachable!(),
    }
}

/// Makes a step that needs no picture.
pub fn make_plain(course: &mut Course, step: ReStepName) -> ReEntry
    requires plain { IsTrue (is_plain step) }
    requires ready { IsTrue (is_ready course.old.plan course.old.past step) }
    ensures line { due course.old.plan course.old.past step ≡ Some result }
    ensures course { course.new ≡ with_line result course.old }
{
    let Some(line) = plain_due(course, step) else {
        unreachable!()
    };
    course.add(step, line);
    line
}

/// Takes the next request, and draws its input.
pub fn make_take(
    course: &mut Course,
    places: &mut [Option<Place>],
    readout: &mut Option<Readout>,
) -> ReEntry
    requires ready { IsTrue (is_ready course.old.plan course.old.past ReStepName.TakeNext) }
    requires places { ArePlaces course.old.plan course.old.past places.old }
    requires readout { IsTrue (is_some readout.old) }
    ensures line { due course.old.plan course.old.past ReStepName.TakeNext ≡ Some result }
    ensures course { course.new ≡ with_line result course.old }
    ensures places { ArePlaces course.new.plan course.new.past places.new }
    ensures readout { IsTrue (is_some readout.new) }
{
    let plan = course.plan();
    let Some(line) = course.take_due() else {
        unreachable!()
    };
    let ReEntry::Take { frame, input, .. } = line else {
        unreachable!()
    };
    draw_into(plan, places, readout, frame, input);
    course.add(ReStepName::TakeNext, line);
    line
}

/// The size of an output that the plan has.
fn output_spec(plan: &Plan, stream: StreamIx) -> StreamSpec
    requires { IsTrue (is_some (at_place plan.now.outputs stream.0)) }
    ensures { at_place plan.now.outputs stream.0 ≡ Some result }
{
    let spec = match stream.0 {
        0 => plan.outputs.a,
        1 => plan.outputs.b,
        2 => plan.outputs.c,
        3 => plan.outputs.d,
        _ => None,
    };
    match spec {
        Some(spec) => spec,
        None => unreachable!(),
    }
}

/// Makes the picture of an output, and gives its buffer back.
pub fn make_fill(
    course: &mut Course,
    places: &[Option<Place>],
    blocks: &mut Vec<OutputBlock>,
    memory: &mut OutputMemory,
    frame: FrameNo,
    stream: StreamIx,
) -> ReEntry
    requires ready { IsTrue (is_ready course.old.plan course.old.past (ReStepName.ReturnFilled frame stream)) }
    requires places { ArePlaces course.old.plan course.old.past places.now }
    requires blocks { length blocks.old.items ≡ 12 }
    ensures line { due course.old.plan course.old.past (ReStepName.ReturnFilled frame stream) ≡ Some result }
    ensures course { course.new ≡ with_line result course.old }
    ensures places { ArePlaces course.new.plan course.new.past places.now }
    ensures blocks { length blocks.new.items ≡ 12 }
{
    let plan = course.plan();
    let Some(buffer) = course.fill_buffer(frame, stream) else {
        unreachable!()
    };
    let Some(input) = course.input_of(frame) else {
        unreachable!()
    };
    let to = output_spec(plan, stream);
    let ticket = ticket_at(places, input as usize);
    let block = &mut blocks[buffer.0 as usize];
    let digest = block.fill(ticket, to, buffer, memory);
    let line = ReEntry::Fill {
        frame,
        stream,
        buffer,
        digest,
    };
    course.add(ReStepName::ReturnFilled(frame, stream), line);
    line
}

/// Gives the input of a request back.
pub fn make_return(course: &mut Course, places: &mut [Option<Place>], frame: FrameNo) -> ReEntry
    requires ready { IsTrue (is_ready course.old.plan course.old.past (ReStepName.ReturnInput frame)) }
    requires places { ArePlaces course.old.plan course.old.past places.old }
    ensures line { due course.old.plan course.old.past (ReStepName.ReturnInput frame) ≡ Some result }
    ensures course { course.new ≡ with_line result course.old }
    ensures places { ArePlaces course.new.plan course.new.past places.new }
{
    let _plan = course.plan();
    let Some(line) = course.input_due(frame) else {
        unreachable!()
    };
    let ReEntry::Input { input, .. } = line else {
        unreachable!()
    };
    let ticket = take_ticket(places, input.0 as usize);
    put(places, input.0 as usize, Place::Home(ticket.into_buffer()));
    course.add(ReStepName::ReturnInput(frame), line);
    line
}
