//! What a log with an empty report means: functions that do nothing, and whose contracts hold of every log of any
//! framework and any device.
ghost use Rattle.std.specs.Prelude.{ℕ, List};
ghost use Rattle.hal_model.specs.declared.event.HalEvent.{HalEvent as AnEvent};
ghost use Rattle.hal_laws.specs.Promised.{BuffersInOrder, EachOnce, MetadataInOrder, NoneTwice, NothingGoodFails, OneHolder};

/// In a log with an empty report a buffer is in one place: at most one request has it at the device. It comes back for
/// a request once at most, and each buffer of an accepted request that isn't outstanding came back once.
#[tactic(auto, using(crate::proofs::Holders::one_holder, crate::proofs::Returns::none_twice, crate::proofs::Returns::each_once))]
pub fn a_buffer_is_in_one_place()
    ensures place { (k : ℕ) (log : List AnEvent) → OneHolder k log }
    ensures twice { (k : ℕ) (log : List AnEvent) → NoneTwice k log }
    ensures once { (k : ℕ) (log : List AnEvent) → EachOnce k log }
{}

/// In a log with an empty report no event brings metadata or an ok buffer of a request that failed whole.
#[tactic(auto, using(crate::proofs::Orders::nothing_good_fails))]
pub fn what_failed_brings_nothing_good()
    ensures { (k : ℕ) (e : AnEvent) (log : List AnEvent) → NothingGoodFails k e log }
{}

/// In a log with an empty report the ok buffers of a stream come in the order in which their requests were begun, and
/// so does the last part of the metadata.
#[tactic(auto, using(crate::proofs::Orders::buffers_in_order, crate::proofs::Orders::metadata_in_order))]
pub fn what_comes_is_in_order()
    ensures buffers { (k : ℕ) (e : AnEvent) (log : List AnEvent) → BuffersInOrder k e log }
    ensures metadata { (k : ℕ) (e : AnEvent) (log : List AnEvent) → MetadataInOrder k e log }
{}
