//! The specification of a stream of the plan.
ghost use Rattle.std.specs.Prelude.{◌≡◌, ◌++◌, List, Some, IfErr, IfOk, map, option_to_list, slice_get};
ghost use Rattle.device_core.specs.Stored.{spec_of, specs_of};
ghost use Rattle.request_checks.specs.declared.plan.PlanStream.{PlanStream as AStream};

use cam_types::{Four, StreamIx, StreamSpec};
use request_checks::{Plan, PlanStream};

/// The specification at a place, where the stream has it; else the place counted from the next stream on.
fn step(stream: Option<PlanStream>, place: u8) -> Result<StreamSpec, u8>
    ensures here { IfOk result
        (λ spec. (rest : List AStream) → slice_get (map spec_of (option_to_list stream ++ rest)) place ≡ Some spec) }
    ensures later { IfErr result
        (λ next. (rest : List AStream) →
        slice_get (map spec_of (option_to_list stream ++ rest)) place ≡ slice_get (map spec_of rest) next) }
{
    match stream {
        Some(stream) => {
            if place == 0 {
                return Ok(stream.spec);
            }
            Err(place - 1)
        }
        None => Err(place),
    }
}

/// The specification of a stream of the plan.
pub fn spec_at(plan: Plan, stream: StreamIx) -> Option<StreamSpec>
    ensures { result ≡ slice_get (specs_of plan) stream.0 }
{
    let Four { a, b, c, d } = plan.streams;
    let second = match step(a, stream.0) {
        Ok(spec) => return Some(spec),
        Err(place) => place,
    };
    let third = match step(b, second) {
        Ok(spec) => return Some(spec),
        Err(place) => place,
    };
    let fourth = match step(c, third) {
        Ok(spec) => return Some(spec),
        Err(place) => place,
    };
    match d {
        Some(stream) if fourth == 0 => Some(stream.spec),
        _ => None,
    }
}
