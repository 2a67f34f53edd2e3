//! A law of legal traces: a function that does nothing, and whose contract holds of every script and every trace.
ghost use Rattle.std.specs.Prelude.{List};
ghost use Rattle.cam_types.specs.declared.script.Script.{Script as SomeScript};
ghost use Rattle.trace_model.specs.declared.entry.Entry.{Entry as SomeEntry};
ghost use Rattle.hal_call.specs.Printed.{LogPrints};

/// The hal log of a legal trace of a valid script is one that has a text: its lists are short, and each end of a call
/// has its begin.
#[tactic(auto, using(crate::proofs::Prints::log_prints))]
pub fn hal_logs_of_legal_traces_print()
    ensures { (script : SomeScript) (entries : List SomeEntry) → LogPrints script entries }
{}
