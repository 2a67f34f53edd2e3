//! Laws on joint runs: functions that do nothing, and whose contracts hold of every script and every list of deeds.
ghost use Rattle.std.specs.Prelude.{List};
ghost use Rattle.cam_types.specs.declared.script.Script.{Script as SomeScript};
ghost use Rattle.logical_call.specs.Runs.{Deed};
ghost use Rattle.logical_call.specs.LogicalLaws.{EachItemHasOnePair, IsBounded, PairsFollowTheSecondEnd, RunsOfBoth};

/// What the picks choose is a run of both cameras: each camera's part is a run of its script, and a legal trace of it.
#[tactic(auto, using(crate::proofs::Joint::runs_of_both))]
pub fn a_joint_run_is_a_run_of_both()
    ensures { (script : SomeScript) (deeds : List Deed) → RunsOfBoth script deeds }
{}

/// A joint run has at most twice as many deeds as the bound of the script's moves.
#[tactic(auto, using(crate::proofs::Joint::is_bounded))]
pub fn a_joint_run_is_bounded()
    ensures { (script : SomeScript) (deeds : List Deed) → IsBounded script deeds }
{}

/// A pair stands directly behind the deed by which its frame ended in the second of the two.
#[tactic(auto, using(crate::proofs::Joint::pairs_follow_the_second_end))]
pub fn a_pair_follows_the_second_end()
    ensures { (script : SomeScript) (deeds : List Deed) → PairsFollowTheSecondEnd script deeds }
{}

/// A joint run that is complete has just one pair for each item of the script.
#[tactic(auto, using(crate::proofs::Joint::each_item_has_one_pair))]
pub fn a_joint_run_has_one_pair_for_each_item()
    ensures { (script : SomeScript) (deeds : List Deed) → EachItemHasOnePair script deeds }
{}
