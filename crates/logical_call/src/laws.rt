//! Laws on runs of one script: functions that do nothing, and whose contracts hold of every script and every past.
ghost use Rattle.std.specs.Prelude.{List};
ghost use Rattle.cam_types.specs.declared.script.Script.{Script as SomeScript};
ghost use Rattle.trace_model.specs.declared.entry.Entry.{Entry as SomeEntry};
ghost use Rattle.logical_call.specs.declared.pair.Side.{Side as SomeSide};
ghost use Rattle.logical_call.specs.Laws.{DropsAreNotSent, EachFrameEnds, EachItemHasANumber, EachItemHasAPair, EndsStay, FaultsAside, FramesAgree, HowItEndedStays, ItemsAgree, ItemsAreTheScripts, NumbersAreGivenOnce, OneFrameEnds, PairsAreOfEndedFrames, PairsEndSo, PairsFollow, PairsSayHowTheyEnded, RepliesAgree, RepliesAreTheScripts, SettingsAreTheScripts};

/// Each call has the reply that the script alone gives it, in each legal run of an orderless script; so two runs, also
/// of scripts with other faults and picks, have the same reply to each call.
#[tactic(auto, using(crate::proofs::Replies::replies_are, crate::proofs::Replies::replies_agree))]
pub fn replies_are_the_scripts()
    ensures one { (script : SomeScript) (past : List SomeEntry) → RepliesAreTheScripts script past }
    ensures two { (script other : SomeScript) (past second : List SomeEntry) →
        RepliesAgree script other past second }
{}

/// Each frame number that was given away is of the item that the script alone gives it; so two runs have the same item
/// to each number. Each frame that was sent has that item's settings.
#[tactic(auto, using(crate::proofs::Settings::settings_are, crate::proofs::Numbers::items_are, crate::proofs::Numbers::items_agree))]
pub fn items_are_the_scripts()
    ensures one { (script : SomeScript) (past : List SomeEntry) → ItemsAreTheScripts script past }
    ensures settings { (script : SomeScript) (past : List SomeEntry) → SettingsAreTheScripts script past }
    ensures two { (script other : SomeScript) (past second : List SomeEntry) →
        ItemsAgree script other past second }
{}

/// Each number below the next is sent or dropped once, and a frame that was dropped wasn't sent.
#[tactic(auto, using(crate::proofs::Frames::numbers_once, crate::proofs::Frames::drops_not_sent))]
pub fn numbers_are_given_once()
    ensures once { (script : SomeScript) (past : List SomeEntry) → NumbersAreGivenOnce script past }
    ensures either { (script : SomeScript) (past : List SomeEntry) → DropsAreNotSent script past }
{}

/// A complete run of an orderless script has a number for each of its items, and each of these frames ended; so two
/// complete runs have the same frames, and each ended in both.
#[tactic(auto, using(crate::proofs::Frames::all_numbered, crate::proofs::Frames::each_ends, crate::proofs::Frames::frames_agree))]
pub fn complete_runs_have_the_same_frames()
    ensures numbers { (script : SomeScript) (past : List SomeEntry) → EachItemHasANumber script past }
    ensures ends { (script : SomeScript) (past : List SomeEntry) → EachFrameEnds script past }
    ensures two { (script other : SomeScript) (past second : List SomeEntry) →
        FramesAgree script other past second }
{}

/// A frame that ended stays so, an entry ends one frame at most, and a pair ends well exactly where both cameras have
/// the frame whole, and by a drop exactly where both dropped it.
#[tactic(auto, using(crate::proofs::Frames::ends_stay, crate::proofs::Whole::how_it_ended_stays, crate::proofs::Ends::one_ends, crate::proofs::Ends::pairs_end))]
pub fn a_frame_ends_once()
    ensures stays { (script : SomeScript) (past : List SomeEntry) → EndsStay script past }
    ensures kept { (script : SomeScript) (past : List SomeEntry) → HowItEndedStays script past }
    ensures one { (script : SomeScript) (past : List SomeEntry) → OneFrameEnds script past }
    ensures pair { (script other : SomeScript) (past second : List SomeEntry) →
        PairsEndSo script other past second }
{}

/// Of two cameras side by side each frame that has ended in both has one pair, directly after what ended it in the
/// second of them. Two complete runs have one pair for each item of the script.
#[tactic(auto, using(crate::proofs::Sides::pairs_once, crate::proofs::Sides::pairs_follow, crate::proofs::Sides::each_has_a_pair, crate::proofs::Whole::pairs_say))]
pub fn each_frame_has_one_pair()
    ensures once { (script other : SomeScript) (sides : List SomeSide) →
        PairsAreOfEndedFrames script other sides }
    ensures follow { (script other : SomeScript) (sides : List SomeSide) → PairsFollow script other sides }
    ensures whole { (script other : SomeScript) (sides : List SomeSide) → EachItemHasAPair script other sides }
    ensures say { (script other : SomeScript) (sides : List SomeSide) → PairsSayHowTheyEnded script other sides }
{}

/// The second camera's script differs from the first's in its faults alone, and no order of steps changes its replies
/// either.
#[tactic(auto, using(crate::proofs::Steady::faults_aside))]
pub fn the_second_has_no_faults()
    ensures { (script : SomeScript) → FaultsAside script }
{}
