//! The buffers of a request, as they are held at first.
ghost use Rattle.std.specs.Prelude.{◌≡◌};
ghost use Rattle.device_core.specs.Kept.{waiting_at, waiting_in};
ghost use Rattle.device_core.specs.Stored.{AreParked, IsParkedAt, specs_of};

use crate::buffers::{Held, WaitingBuf};
use crate::plan::spec_at;
use buffer_pool::Parked;
use cam_types::{Four, TargetView};
use request_checks::Plan;

/// The buffers of a request's targets, as the device holds them.
pub(crate) fn hold(plan: Plan, targets: Four<TargetView>, parked: Four<Parked>) -> Four<Held>
    requires { AreParked (specs_of plan) targets parked }
    ensures { result ≡ waiting_in (specs_of plan) targets }
{
    let Four { a, b, c, d } = parked;
    Four {
        a: hold_at(plan, targets.a, a),
        b: hold_at(plan, targets.b, b),
        c: hold_at(plan, targets.c, c),
        d: hold_at(plan, targets.d, d),
    }
}

fn hold_at(plan: Plan, target: Option<TargetView>, parked: Option<Parked>) -> Option<Held>
    requires { IsParkedAt (specs_of plan) target parked }
    ensures { result ≡ waiting_at (specs_of plan) target }
{
    match (target, parked) {
        (Some(target), Some(parked)) => match spec_at(plan, target.stream) {
            Some(spec) => Some(Held::Waiting(WaitingBuf::new(spec, parked))),
            None => unreachable!(),
        },
        (None, None) => None,
        _ => unreachable!(),
    }
}
