//! Laws of the bounds: functions that do nothing, and whose contracts hold of every script and every past.
ghost use Rattle.std.specs.Prelude.{List};
ghost use Rattle.cam_types.specs.declared.script.Script.{Script as SomeScript};
ghost use Rattle.trace_model.specs.declared.entry.Entry.{Entry as SomeEntry};
ghost use Rattle.trace_laws.specs.Laws.{BoundsBuffers, BoundsCalls, BoundsEarlies, BoundsFences, BoundsFit, BoundsFrames, BoundsMost, BoundsRequests, BoundsSends, BoundsTimes, PrintsTyped};

/// A legal run gives away no more frame numbers than the bound on frames, and so sends no more frames.
#[tactic(auto, using(crate::proofs::FrameLemmas::frames_bounded, crate::proofs::FrameLemmas::sends_bounded))]
pub fn frames_are_bounded()
    ensures numbers { (script : SomeScript) (past : List SomeEntry) → BoundsFrames script past }
    ensures sends { (script : SomeScript) (past : List SomeEntry) → BoundsSends script past }
{}

/// A legal run answers no more calls than the script has commands, and accepts no more requests.
#[tactic(auto, using(crate::proofs::Calls::calls_bounded, crate::proofs::Calls::requests_bounded))]
pub fn calls_are_bounded()
    ensures calls { (script : SomeScript) (past : List SomeEntry) → BoundsCalls script past }
    ensures requests { (script : SomeScript) (past : List SomeEntry) → BoundsRequests script past }
{}

/// A legal run releases no more fences than the bound on fences.
#[tactic(auto, using(crate::proofs::FenceLemmas::fences_bounded))]
pub fn fences_are_bounded()
    ensures { (script : SomeScript) (past : List SomeEntry) → BoundsFences script past }
{}

/// A legal run gives away no more device fences than the bound on them.
#[tactic(auto, using(crate::proofs::EarlyLemmas::earlies_bounded))]
pub fn device_fences_are_bounded()
    ensures { (script : SomeScript) (past : List SomeEntry) → BoundsEarlies script past }
{}

/// A legal run makes no more buffers than the bound on buffers.
#[tactic(auto, using(crate::proofs::BufferLemmas::buffers_bounded))]
pub fn buffers_are_bounded()
    ensures { (script : SomeScript) (past : List SomeEntry) → BoundsBuffers script past }
{}

/// No shutter of a legal run is later than the bound on times.
#[tactic(auto, using(crate::proofs::TimeLemmas::times_bounded))]
pub fn shutter_times_are_bounded()
    ensures { (script : SomeScript) (past : List SomeEntry) → BoundsTimes script past }
{}

/// The bounds of a valid script fit the fields of the entries: 32 bits for numbers, and 63 for times.
#[tactic(auto, using(crate::proofs::ValidLemmas::bounds_most, crate::proofs::ValidLemmas::bounds_fit))]
pub fn bounds_of_a_valid_script_fit()
    ensures most { (script : SomeScript) → BoundsMost script }
    ensures fit { (script : SomeScript) → BoundsFit script }
{}

/// Every entry of a legal run of a valid script has a line in the trace's text.
#[tactic(auto, using(crate::proofs::Printing::prints_all))]
pub fn every_entry_prints()
    ensures { (script : SomeScript) (past : List SomeEntry) → PrintsTyped script past }
{}
