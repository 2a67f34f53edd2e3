//! A plan is played to its end.
ghost use Rattle.std.specs.Prelude.{◌≡◌, [], length};
ghost use Rattle.reprocess_model.specs.Run.{pick_at};
ghost use Rattle.reprocess_call.specs.Reprocess.{IsWholeRun};

use reprocess_core::{ReStep, Reprocess};
use reprocess_model::a_run_has_eight_lines_for_a_request;

/// The pick of the next step: that of the plan at the place of the step, and 0 behind the last.
fn next_pick(device: &Reprocess) -> u32
    ensures { result ≡ pick_at device.now.plan (length device.now.past) }
{
    let place = device.lines().len();
    match device.plan().picks.as_slice().get(place) {
        Some(pick) => *pick,
        None => 0,
    }
}

/// Makes the steps that the picks choose, until the run is complete.
pub fn play(device: &mut Reprocess)
    requires { device.old.past ≡ [] }
    ensures plan { device.new.plan ≡ device.old.plan }
    ensures run { IsWholeRun device.new.plan device.new.past }
{
    a_run_has_eight_lines_for_a_request();
    let mut is_done = false;
    while !is_done {
        let pick = next_pick(device);
        let made = device.step(pick);
        let _legal = device.plan();
        match made {
            ReStep::Did(_) => {}
            ReStep::Finished => is_done = true,
        }
    }
    let _legal = device.plan();
}
