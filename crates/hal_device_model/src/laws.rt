//! A function that does nothing, and whose contract holds of every list of calls.
ghost use Rattle.std.specs.Prelude.{List};
ghost use Rattle.cam_types.specs.declared.profile.Profile.{Profile as SomeProfile};
ghost use Rattle.cam_types.specs.declared.script.Fault.{Fault as SomeFault};
ghost use Rattle.hal_model.specs.declared.rule.Rule.{Rule as SomeRule};
ghost use Rattle.hal_device_model.specs.Log.{HalCall};
ghost use Rattle.hal_device_model.specs.Law.{KeepsJudged, KeepsThem};

/// Whatever calls are made, in whatever order, with whatever faults: no event of the log breaks one of the rules that
/// `kept_rules` lists. Where each frame number of the framework is above the accepted ones, the judge tells none of these
/// of the device, nor unknown-frame.
#[tactic(auto, using(crate::proofs::Whole::keeps_them, crate::proofs::Frames::keeps_judged))]
pub fn the_device_keeps_its_rules()
    ensures rules { (profile : SomeProfile) (faults : List SomeFault) (calls : List HalCall) →
        KeepsThem profile faults calls }
    ensures judged { (profile : SomeProfile) (faults : List SomeFault) (calls : List HalCall) (rule : SomeRule) →
        KeepsJudged profile faults calls rule }
{}
