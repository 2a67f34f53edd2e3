//! The parts of the camera, and the kinds of steps that the loops of those make that hand out no job.
use run_model::Kind;

/// A part of the camera that a loop works for.
#[derive(Clone, Copy)]
pub(crate) enum Part {
    /// Begins the script's commands and answers them.
    Client,
    /// Sends requests to the device, and drops those that are queued at an end.
    Requests,
    /// Exposes frames.
    Sensor,
    /// Fills buffers, and makes the steps of the other parts where one is ready.
    Stage,
    /// Tells what became of each frame.
    Results,
    /// Gives buffers back, and signals their fences.
    Consumer,
}

/// How many parts have one loop: all but the stages.
pub(crate) const SINGLE_PARTS: u32 = 5;

/// The kinds of steps of each part that hands out no job, the one that comes first.
pub(crate) const CLIENT: &[Kind] = &[Kind::Client];

pub(crate) const REQUESTS: &[Kind] = &[Kind::Send, Kind::DropQueued];

pub(crate) const RESULTS: &[Kind] = &[
    Kind::Fail,
    Kind::ReturnFailed,
    Kind::Partial,
    Kind::Deliver,
    Kind::Early,
    Kind::Finish,
];

pub(crate) const CONSUMER: &[Kind] = &[Kind::Release, Kind::Signal];

/// Those of all these parts.
pub(crate) const ALL: &[Kind] = &[
    Kind::Fail,
    Kind::ReturnFailed,
    Kind::Partial,
    Kind::Deliver,
    Kind::Early,
    Kind::Finish,
    Kind::Release,
    Kind::Signal,
    Kind::Send,
    Kind::DropQueued,
    Kind::Client,
];

impl Part {
    /// The part of the loop with this number, from 1 on: first those with one loop each, then the stages.
    pub(crate) fn of_loop(number: u32) -> Part {
        match number {
            1 => Part::Client,
            2 => Part::Requests,
            3 => Part::Sensor,
            4 => Part::Results,
            5 => Part::Consumer,
            _ => Part::Stage,
        }
    }
}
