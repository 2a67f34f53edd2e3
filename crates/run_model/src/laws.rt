//! A law of runs: a function that does nothing, and whose contract holds of every script and every past.
ghost use Rattle.std.specs.Prelude.{List};
ghost use Rattle.cam_types.specs.declared.script.Script.{Script as SomeScript};
ghost use Rattle.run_model.specs.Lawful.{KeepsLaws};
ghost use Rattle.trace_model.specs.Complete.{IsComplete};
ghost use Rattle.trace_model.specs.declared.entry.Entry.{Entry as SomeEntry};

use trace_laws::{
    buffers_are_conserved, buffers_are_sent_from_home, buffers_end_once, deliveries_are_in_order,
    fences_are_released_and_signalled_once, items_end_once, metadata_ends_in_order,
    metadata_ends_once, partials_count_up, shutters_rise,
};

/// A complete run keeps the laws.
pub fn a_complete_run_keeps_the_laws()
    ensures { (script : SomeScript) (past : List SomeEntry) → IsComplete script past → KeepsLaws script past }
{
    buffers_are_conserved();
    buffers_are_sent_from_home();
    buffers_end_once();
    deliveries_are_in_order();
    fences_are_released_and_signalled_once();
    items_end_once();
    metadata_ends_in_order();
    metadata_ends_once();
    partials_count_up();
    shutters_rise();
}
