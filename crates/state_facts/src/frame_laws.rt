//! Laws on the rows of open frames: functions that do nothing, and whose contracts hold of every script and every past.
ghost use Rattle.std.specs.Prelude.{List};
ghost use Rattle.cam_types.specs.declared.script.Script.{Script as SomeScript};
ghost use Rattle.trace_model.specs.declared.entry.Entry.{Entry as SomeEntry};
ghost use Rattle.state_facts.specs.FrameReadings.{BufferReads, CountReads, DeviceReads, DoneReads, EarlyReads, FailedReads, FilledReads, LastReads, LateReads, OutReads, PartReads, QuietReads, RequestReads, ResultReads, RowsFew, RowsOrderly, ShutterReads, TimeReads};
ghost use Rattle.state_facts.specs.Row.{RowsFollow};

/// The rows of the open frames after an entry are those before it, with the entry noted.
#[tactic(auto, using(crate::proofs::FrameRows::rows_follow))]
pub fn rows_follow_entries()
    ensures { (script : SomeScript) (past : List SomeEntry) (e : SomeEntry) → RowsFollow script past e }
{}

/// How many frames are open, and whether any is.
#[tactic(auto, using(crate::proofs::OpenRows::count_reads, crate::proofs::OpenRows::quiet_reads))]
pub fn rows_tell_open_frames()
    ensures count { (script : SomeScript) (past : List SomeEntry) → CountReads script past }
    ensures quiet { (script : SomeScript) (past : List SomeEntry) → QuietReads script past }
{}

/// The shutter and the device failure that are due, and the time of the next shutter.
#[tactic(auto, using(crate::proofs::Sensor::shutter_reads, crate::proofs::Sensor::device_reads, crate::proofs::Sensor::time_reads))]
pub fn rows_tell_the_sensor()
    ensures shutter { (script : SomeScript) (past : List SomeEntry) → ShutterReads script past }
    ensures device { (script : SomeScript) (past : List SomeEntry) → DeviceReads script past }
    ensures time { (script : SomeScript) (past : List SomeEntry) (e : SomeEntry) → TimeReads script past e }
{}

/// The partial result and the errors of a frame that are due.
#[tactic(auto, using(crate::proofs::Metadata::part_reads, crate::proofs::Errors::request_reads, crate::proofs::Errors::result_reads, crate::proofs::Errors::buffer_reads))]
pub fn rows_tell_metadata_and_errors()
    ensures part { (script : SomeScript) (past : List SomeEntry) → PartReads script past }
    ensures request { (script : SomeScript) (past : List SomeEntry) → RequestReads script past }
    ensures result { (script : SomeScript) (past : List SomeEntry) → ResultReads script past }
    ensures buffer { (script : SomeScript) (past : List SomeEntry) → BufferReads script past }
{}

/// The filled and the failed buffer of a frame that are due, and how many buffers of a stream are at the device.
#[tactic(auto, using(crate::proofs::Deliver::filled_reads, crate::proofs::Deliver::failed_reads, crate::proofs::Room::out_reads))]
pub fn rows_tell_buffers()
    ensures filled { (script : SomeScript) (past : List SomeEntry) → FilledReads script past }
    ensures failed { (script : SomeScript) (past : List SomeEntry) → FailedReads script past }
    ensures out { (script : SomeScript) (past : List SomeEntry) → OutReads script past }
{}

/// The early return of a frame's buffer that is due, and the signal of a device fence.
#[tactic(auto, using(crate::proofs::Deliver::early_reads, crate::proofs::Late::late_reads))]
pub fn rows_tell_early_returns()
    ensures early { (script : SomeScript) (past : List SomeEntry) → EarlyReads script past }
    ensures late { (script : SomeScript) (past : List SomeEntry) → LateReads script past }
{}

/// At most as many frames are open as the device takes, and the targets of each are in the order of their streams.
#[tactic(auto, using(crate::proofs::Orderly::rows_few, crate::proofs::Orderly::rows_orderly))]
pub fn rows_are_few_and_in_order()
    ensures few { (script : SomeScript) (past : List SomeEntry) → RowsFew script past }
    ensures orderly { (script : SomeScript) (past : List SomeEntry) → RowsOrderly script past }
{}

/// How many repeating frames were done with since the last begin, and which entry is the last of one.
#[tactic(auto, using(crate::proofs::FrameDone::done_reads, crate::proofs::FrameDone::last_reads))]
pub fn closed_rows_are_counted()
    ensures last { (script : SomeScript) (past : List SomeEntry) (e : SomeEntry) → LastReads script past e }
    ensures done { (script : SomeScript) (past : List SomeEntry) (e : SomeEntry) → DoneReads script past e }
{}
