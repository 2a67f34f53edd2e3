//! Laws of runs: functions that do nothing, and whose contracts hold of every script and every past.
ghost use Rattle.std.specs.Prelude.{List};
ghost use Rattle.cam_types.specs.declared.script.Script.{Script as SomeScript};
ghost use Rattle.trace_model.specs.declared.entry.Entry.{Entry as SomeEntry};
ghost use Rattle.trace_laws.specs.BufferLaws.{DeliversInOrder, KeepsBuffers, ReleasesOnce, ReturnsAtMostOnce, ReturnsOnce, SendsFromHome, SignalsLater, SignalsOnce};

/// In a legal run every buffer is sent as often as it is returned, and once more while it is at the device: then it is
/// one of the configuration's.
#[tactic(auto, using(crate::proofs::Conserved::buffers_conserved))]
pub fn buffers_are_conserved()
    ensures { (script : SomeScript) (past : List SomeEntry) → KeepsBuffers script past }
{}

/// In a legal run each fence is released once, and signalled only after that; in a complete one each is signalled once.
#[tactic(auto, using(crate::proofs::Fences::fences_released_once, crate::proofs::Fences::fences_signalled_later, crate::proofs::Early::fences_once))]
pub fn fences_are_released_and_signalled_once()
    ensures released { (script : SomeScript) (past : List SomeEntry) → ReleasesOnce script past }
    ensures later { (script : SomeScript) (past : List SomeEntry) → SignalsLater script past }
    ensures signalled { (script : SomeScript) (past : List SomeEntry) → SignalsOnce script past }
{}

/// In a legal run no buffer of a frame comes back twice; in a complete one each comes back once, filled or failed.
#[tactic(auto, using(crate::proofs::Once::buffers_ended_once))]
pub fn buffers_end_once()
    ensures at_most { (script : SomeScript) (past : List SomeEntry) → ReturnsAtMostOnce script past }
    ensures once { (script : SomeScript) (past : List SomeEntry) → ReturnsOnce script past }
{}

/// In a legal run the filled buffers of each stream come in the order of frames.
#[tactic(auto, using(crate::proofs::Order::delivered_in_order))]
pub fn deliveries_are_in_order()
    ensures { (script : SomeScript) (past : List SomeEntry) → DeliversInOrder script past }
{}

/// In a legal run a buffer is sent only where it is home: one that came back early was released since, which waits for its
/// late fill.
#[tactic(auto, using(crate::proofs::Early::sent_from_home))]
pub fn buffers_are_sent_from_home()
    ensures { (script : SomeScript) (past : List SomeEntry) → SendsFromHome script past }
{}
