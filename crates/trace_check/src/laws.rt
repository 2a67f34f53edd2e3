//! Laws of the definitions: functions that do nothing, and whose contracts hold of every script and every trace.
ghost use Rattle.std.specs.Prelude.{◌≡◌, List};
ghost use Rattle.cam_types.specs.declared.script.Script.{Script as SomeScript};
ghost use Rattle.trace_model.specs.Verdict.{IsVerdict};
ghost use Rattle.trace_model.specs.declared.verdict.Verdict.{Verdict as SomeVerdict};
ghost use Rattle.trace_model.specs.declared.entry.Entry.{Entry as SomeEntry};

/// A trace has one verdict: so the judge calls a trace legal exactly where it is a complete legal run, and the position
/// that it names is the least one.
pub fn a_trace_has_one_verdict()
    ensures { (script : SomeScript) (trace : List SomeEntry) (verdict other : SomeVerdict) →
        IsVerdict script trace verdict → IsVerdict script trace other → verdict ≡ other }
{}
