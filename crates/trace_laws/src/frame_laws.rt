//! Laws on frames: functions that do nothing, and whose contracts hold of every script and every past.
ghost use Rattle.std.specs.Prelude.{List};
ghost use Rattle.cam_types.specs.declared.script.Script.{Script as SomeScript};
ghost use Rattle.trace_model.specs.declared.entry.Entry.{Entry as SomeEntry};
ghost use Rattle.trace_laws.specs.FrameLaws.{ItemsEndOnce, MetadataEndsInOrder, MetadataEndsOnce, PartialsCountUp, PartsComeInOrder, ShuttersRise};

/// Each shutter of a legal run has a greater frame and a later time than all before it.
#[tactic(auto, using(crate::proofs::Shutters::shutters_rise))]
pub fn shutters_rise()
    ensures { (script : SomeScript) (past : List SomeEntry) → ShuttersRise script past }
{}

/// The metadata of the frames of a legal run ends in the order of their numbers: each last part and each result error
/// is of a greater frame than all before it.
#[tactic(auto, using(crate::proofs::MetadataOrder::metadata_in_order))]
pub fn metadata_ends_in_order()
    ensures { (script : SomeScript) (past : List SomeEntry) → MetadataEndsInOrder script past }
{}

/// The parts of each frame of a legal run are 1 to k, each once and in turn. In a complete one k is 3, but for a frame
/// with a result error or a request error.
#[tactic(auto, using(crate::proofs::Parts::parts_in_order, crate::proofs::MetadataOnce::partials_count_up))]
pub fn partials_count_up()
    ensures parts { (script : SomeScript) (past : List SomeEntry) → PartsComeInOrder script past }
    ensures whole { (script : SomeScript) (past : List SomeEntry) → PartialsCountUp script past }
{}

/// The metadata of each frame of a complete run ends once: by its last part, by a result error or by a request error.
#[tactic(auto, using(crate::proofs::MetadataOnce::metadata_once))]
pub fn metadata_ends_once()
    ensures { (script : SomeScript) (past : List SomeEntry) → MetadataEndsOnce script past }
{}

/// Each item of an accepted once or burst of a complete run is sent or dropped once.
#[tactic(auto, using(crate::proofs::Items::items_once))]
pub fn items_end_once()
    ensures { (script : SomeScript) (past : List SomeEntry) → ItemsEndOnce script past }
{}
