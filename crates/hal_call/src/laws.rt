//! A law of legal traces: a function that does nothing, and whose contract holds of every script and every trace.
ghost use Rattle.std.specs.Prelude.{List};
ghost use Rattle.cam_types.specs.declared.script.Script.{Script as SomeScript};
ghost use Rattle.trace_model.specs.declared.entry.Entry.{Entry as SomeEntry};
ghost use Rattle.hal_call.specs.Fences.{FencesFit};

/// Each fence of a legal trace of a valid script has its number in the hal log.
#[tactic(auto, using(crate::proofs::Given::fences_fit))]
pub fn fences_of_legal_traces_fit()
    ensures { (script : SomeScript) (entries : List SomeEntry) → FencesFit script entries }
{}
