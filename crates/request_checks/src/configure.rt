//! Checks a configuration into a plan.
ghost use Rattle.std.specs.Prelude.{◌≡◌, map, IfOk, IsTrue};
ghost use Rattle.std.specs.List.{list_all};
ghost use Rattle.std.specs.Option.{option_map};
ghost use Rattle.std.specs.Result.{result_err};
ghost use Rattle.cam_types.specs.Four.{four_list};
ghost use Rattle.cam_types.specs.Picture.{is_offered};
ghost use Rattle.cam_types.specs.Profile.{is_profile};
ghost use Rattle.cam_types.specs.Refusals.{specs_refusal};
ghost use Rattle.request_checks.specs.Plan.{plan_of, plan_stream};
ghost use Rattle.request_checks.specs.Refused.{as_reply};

use crate::plan::{Plan, make_plan};
use crate::refusal::{ConfigRefused, first_refusal};
use cam_types::{Profile, SpecList};

/// The plan of the streams for a device of the profile, or the first refusal whose condition holds, in the order of
/// their numbers. A plan has a stream for each spec, in order, and each of them is offered.
pub fn check(specs: &SpecList, profile: Profile) -> Result<Plan, ConfigRefused>
    requires { IsTrue (is_profile profile) }
    ensures refused { option_map as_reply (result_err result) ≡ specs_refusal specs.now }
    ensures planned { IfOk result (λ plan. plan ≡ plan_of profile specs.now) }
    ensures in_order { IfOk result (λ plan. four_list plan.streams ≡ map (plan_stream profile) specs.now) }
    ensures offered { IfOk result (λ plan. IsTrue (list_all is_offered specs.now)) }
{
    let _count = specs.len();
    let specs = specs.as_slice();
    match first_refusal(specs) {
        Some(refused) => Err(refused),
        None => Ok(make_plan(specs, profile)),
    }
}
