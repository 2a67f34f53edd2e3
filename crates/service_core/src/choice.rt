//! The candidates, counted and found by number, and the first step of a kind.
ghost use Rattle.std.specs.Prelude.{◌≡◌, ◌≤◌, length, slice_get};
ghost use Rattle.service_core.specs.Candidates.{candidates_by, ready_in};
ghost use Rattle.service_state.specs.Serving.{IsServing};
ghost use Rattle.service_core.specs.Finding.{Finds};

use crate::kinds::seek_kind;
use run_model::{Kind, StepName};
use service_state::ServiceState;

/// Every kind of step, in the order of candidates.
const ALL_KINDS: [Kind; 15] = [
    Kind::Send,
    Kind::Release,
    Kind::Signal,
    Kind::Client,
    Kind::DropQueued,
    Kind::Fail,
    Kind::ReturnFailed,
    Kind::Shutter,
    Kind::SensorDone,
    Kind::Partial,
    Kind::TakeFill,
    Kind::FillDone,
    Kind::Deliver,
    Kind::Early,
    Kind::Finish,
];

/// How many steps are ready.
pub fn candidate_count(state: &ServiceState) -> u64
    requires { IsServing state.now }
    ensures { result ≡ length (candidates_by state.now.script state.now.parts) }
{
    let most = most_steps(state);
    match seek(state, most) {
        Ok(_) => unreachable!(),
        Err(left) => most - left,
    }
}

/// The candidate with a number, from 0 on. None exactly where there are no more than so many.
pub fn candidate_at(state: &ServiceState, number: u64) -> Option<StepName>
    requires { IsServing state.now }
    ensures { result ≡ slice_get (candidates_by state.now.script state.now.parts) number }
{
    match seek(state, number) {
        Ok(step) => Some(step),
        Err(_) => None,
    }
}

/// The first step of a kind that is ready. None exactly where none is.
pub fn first_ready(state: &ServiceState, kind: Kind) -> Option<StepName>
    requires { IsServing state.now }
    ensures { result ≡ slice_get (ready_in state.now.script state.now.parts kind) 0 }
{
    match seek_kind(state, kind, 0) {
        Ok(step) => Some(step),
        Err(_) => None,
    }
}

/// The candidate with a number; where there is none, by how much the number is past the last.
fn seek(state: &ServiceState, number: u64) -> Result<StepName, u64>
    requires { IsServing state.now }
    ensures { Finds (candidates_by state.now.script state.now.parts) number result }
{
    let mut left = number;
    for kind in ALL_KINDS {
        match seek_kind(state, kind, left) {
            Ok(step) => return Ok(step),
            Err(rest) => left = rest,
        }
    }
    Err(left)
}

/// As many steps as may be ready at most: four of their own, one for each buffer and each fence, and for each open frame
/// three, and six for each of its buffers.
fn most_steps(state: &ServiceState) -> u64
    ensures { length (candidates_by state.now.script state.now.parts) ≤ result }
{
    let buffers = u64::from(state.buffer_count());
    let fences = u64::from(state.pending());
    let frames = u64::from(state.open_frames());
    4 + buffers + fences + 27 * frames
}
