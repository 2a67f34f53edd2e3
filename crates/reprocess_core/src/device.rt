//! The device: a run with the pictures of its inputs and outputs.
ghost use Rattle.std.specs.Prelude.{◌≡◌, ℕ, ◌<◌, ◌≤◌, [], IfOk, IsTrue, None, Some, length, reverse, slice_index_or, vec_capacity};
ghost use Rattle.reprocess_model.specs.Due.{due};
ghost use Rattle.reprocess_model.specs.Plan.{is_plan, is_yuv, requests};
ghost use Rattle.reprocess_model.specs.Run.{IsRun, is_ready, steps};
ghost use Rattle.reprocess_core.specs.State.{with_line};
ghost use Rattle.reprocess_core.specs.Device.{Steps};
ghost use Rattle.reprocess_core.specs.Inputs.{AreHome, IsHomeWith};

use crate::Course;
use crate::candidates::all_steps;
use crate::input::{Place, Places, end_places};
use crate::memory::OutputMemory;
use crate::output::OutputBlock;
use crate::steps::{choose, make_fill, make_plain, make_return, make_take};
use cam_types::{BufferId, NoMemory, PixelBuf, Readout, StreamSpec, YUV_BLOCK};
use reprocess_model::{Plan, ReCommand, ReEntry, ReStepName};
use std::alloc::Global;
use std::marker::Model;

/// How many output buffers there are: four for each of three outputs.
const OUTPUT_BUFFERS: u32 = 12;

/// What a step did.
#[derive(Clone, Copy)]
pub enum ReStep {
    /// The step that the pick chose, which is this line.
    Did(ReEntry),
    /// Nothing: the run is complete.
    Finished,
}

/// A reprocessing device that follows a plan. All its memory is taken when it is opened. It can't be let go: `scrap`
/// ends it.
pub struct Reprocess {
    course: Course,
    all: Vec<ReStepName>,
    ready: Vec<ReStepName>,
    places: Places,
    readout: Option<Readout>,
    blocks: Vec<OutputBlock>,
    memory: OutputMemory,
}

impl Model for Reprocess {
    ghost use Rattle.std.specs.Prelude.{vec_capacity};
    ghost use Rattle.reprocess_core.specs.State.{State};
    ghost use Rattle.reprocess_core.specs.Inside.{IsDevice};

    ghost Value = { State };

    ghost view = { λ d. d.course };

    ghost invariant = { λ d. IsDevice d.course d.all.items (vec_capacity d.ready) d.places d.readout d.blocks.items };
}

/// All steps, and room for those that are ready.
type Lists = (Vec<ReStepName>, Vec<ReStepName>);

/// The sensor's readout, the output buffers and the memory of their pictures.
type Pictures = (Readout, Vec<OutputBlock>, OutputMemory);

/// An input buffer over a block, at home.
fn make_home(block: Vec<u8>, spec: StreamSpec) -> Option<Place>
    requires yuv { IsTrue (is_yuv spec) }
    requires whole { length block.items ≡ 28800 }
    ensures { IsHomeWith spec result }
{
    let used = spec.width * spec.height * 3 / 2;
    Some(Place::Home(PixelBuf::over(block, BufferId(0), used)))
}

/// The three input buffers, all at home.
fn make_places(alloc: Global, spec: StreamSpec) -> Result<Places, NoMemory>
    requires { IsTrue (is_yuv spec) }
    ensures { IfOk result (AreHome spec) }
{
    let first = vec![in alloc; 0; YUV_BLOCK]?;
    let second = vec![in alloc; 0; YUV_BLOCK]?;
    let third = vec![in alloc; 0; YUV_BLOCK]?;
    Ok([
        make_home(first, spec),
        make_home(second, spec),
        make_home(third, spec),
    ])
}

/// The memory of the twelve output buffers.
fn make_blocks(alloc: Global) -> Result<Vec<OutputBlock>, NoMemory>
    ensures { IfOk result (λ blocks. length blocks.items ≡ 12) }
{
    let mut blocks = Vec::new(alloc);
    for _ in 0..OUTPUT_BUFFERS {
        blocks.push(OutputBlock::new(alloc)?)?;
    }
    Ok(blocks)
}

/// All steps of so many requests, and room for those that are ready.
fn make_lists(alloc: Global, requests: u32) -> Result<Lists, NoMemory>
    ensures all { IfOk result (λ lists. lists.0.items ≡ steps requests) }
    ensures room { IfOk result (λ lists. length lists.0.items ≤ vec_capacity lists.1) }
{
    let all = all_steps(alloc, requests)?;
    let ready = Vec::with_capacity(alloc, all.len())?;
    Ok((all, ready))
}

/// The memory of pictures: the sensor's readout, the output buffers and the digests of so many requests.
fn make_pictures(alloc: Global, requests: u32) -> Result<Pictures, NoMemory>
    ensures { IfOk result (λ made. length made.1.items ≡ 12) }
{
    let readout = Readout::new(alloc)?;
    let blocks = make_blocks(alloc)?;
    let memory = OutputMemory::with_room(alloc, requests)?;
    Ok((readout, blocks, memory))
}

/// The memory of a device with so many requests and this input, but for its course: the lists of steps, the pictures and
/// the input buffers.
fn make_memory(
    alloc: Global,
    requests: u32,
    spec: StreamSpec,
) -> Result<(Lists, Pictures, Places), NoMemory>
    requires { IsTrue (is_yuv spec) }
    ensures all { IfOk result (λ made. made.0.0.items ≡ steps requests) }
    ensures room { IfOk result (λ made. length made.0.0.items ≤ vec_capacity made.0.1) }
    ensures outputs { IfOk result (λ made. length made.1.1.items ≡ 12) }
    ensures places { IfOk result (λ made. AreHome spec made.2) }
{
    let lists = make_lists(alloc, requests)?;
    let pictures = make_pictures(alloc, requests)?;
    let places = make_places(alloc, spec)?;
    Ok((lists, pictures, places))
}

/// How many requests a plan has.
fn request_count(plan: &Plan) -> u32
    requires { IsTrue (is_plan plan.now) }
    ensures { result ≡ length (requests plan.now.commands) }
{
    let commands = plan.commands.as_slice();
    let mut count = 0;
    for command in commands {
        match command {
            ReCommand::Request(_) => count += 1,
            ReCommand::Flush => {}
        }
    }
    count
}

impl Reprocess {
    /// A device that follows the plan, with nothing done yet. It takes all its memory.
    pub fn open(alloc: Global, plan: Plan) -> Result<Reprocess, NoMemory>
        requires { IsTrue (is_plan plan) }
        ensures { IfOk result (λ device. device ≡ record { plan = plan; past = [] }) }
    {
        let requests = request_count(&plan);
        let spec = plan.input;
        let course = Course::open(alloc, plan)?;
        let ((all, ready), (readout, blocks, memory), places) = make_memory(alloc, requests, spec)?;
        Ok(Reprocess {
            course,
            all,
            ready,
            places,
            readout: Some(readout),
            blocks,
            memory,
        })
    }

    /// The plan that it follows.
    pub fn plan(&self) -> &Plan
        ensures value { result.now ≡ self.now.plan }
        ensures valid { IsTrue (is_plan self.now.plan) }
        ensures run { IsRun self.now.plan self.now.past }
    {
        self.course.plan()
    }

    /// The lines so far, the oldest first.
    pub fn lines(&self) -> &[ReEntry]
        ensures { result.now ≡ reverse self.now.past }
    {
        self.course.lines()
    }

    /// Makes the step of the candidate that the pick names, modulo how many there are, and answers its line; or
    /// nothing, exactly where the run is complete. It takes no memory.
    pub fn step(&mut self, pick: u32) -> ReStep
        ensures { Steps self.old pick result self.new }
    {
        if self.course.is_complete() {
            return ReStep::Finished;
        }
        let step = choose(&self.course, self.all.as_slice(), &mut self.ready, pick);
        let line = self.make(step);
        ReStep::Did(line)
    }

    /// Makes a step that is ready.
    fn make(&mut self, step: ReStepName) -> ReEntry
        requires { IsTrue (is_ready self.old.plan self.old.past step) }
        ensures line { due self.old.plan self.old.past step ≡ Some result }
        ensures new { self.new ≡ with_line result self.old }
    {
        match step {
            ReStepName::TakeNext => make_take(
                &mut self.course,
                &mut self.places,
                &mut self.readout,
            ),
            ReStepName::ReturnFilled(frame, stream) => make_fill(
                &mut self.course,
                &self.places,
                &mut self.blocks,
                &mut self.memory,
                frame,
                stream,
            ),
            ReStepName::ReturnInput(frame) => make_return(
                &mut self.course,
                &mut self.places,
                frame,
            ),
            _ => make_plain(&mut self.course, step),
        }
    }

    /// Ends the device, wherever its run stands.
    pub fn scrap(self) {
        let Reprocess {
            course: _,
            all: _,
            ready: _,
            places,
            readout: _,
            blocks: _,
            memory: _,
        } = self;
        end_places(places);
    }
}
