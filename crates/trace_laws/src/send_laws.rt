//! Laws of sends: functions that do nothing, and whose contracts hold of every script and every past.
ghost use Rattle.std.specs.Prelude.{List};
ghost use Rattle.cam_types.specs.declared.script.Script.{Script as SomeScript};
ghost use Rattle.trace_model.specs.declared.entry.Entry.{Entry as SomeEntry};
ghost use Rattle.trace_laws.specs.SendLaws.{AllowsWhatIsDue, IsDueWhereAllowed};

/// The send that is due, with the least buffer of the pool for each target, is allowed.
#[tactic(auto, using(crate::proofs::Due::due_allowed))]
pub fn a_due_send_is_allowed()
    ensures { (script : SomeScript) (past : List SomeEntry) → AllowsWhatIsDue script past }
{}

/// Where some send is allowed, whatever buffers it takes, one is due.
#[tactic(auto, using(crate::proofs::Due::allowed_due))]
pub fn a_send_is_due_where_one_is_allowed()
    ensures { (script : SomeScript) (past : List SomeEntry) → IsDueWhereAllowed script past }
{}
