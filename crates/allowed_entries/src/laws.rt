//! Laws on the list: functions that do nothing, and whose contracts hold of every script and every past.
ghost use Rattle.std.specs.Prelude.{List};
ghost use Rattle.cam_types.specs.declared.script.Script.{Script as SomeScript};
ghost use Rattle.trace_model.specs.declared.entry.Entry.{Entry as SomeEntry};
ghost use Rattle.trace_model.specs.Allowed.{IsAllowed};
ghost use Rattle.trace_model.specs.Legal.{IsLegal};
ghost use Rattle.allowed_entries.specs.Entries.{allowed_entries};
ghost use Rattle.allowed_entries.specs.Told.{AllTellAllowed, TellsOf};

/// Each of the list is told of an entry that is allowed.
#[tactic(auto, using(crate::proofs::Sound::all_tell))]
pub fn what_is_told_is_allowed()
    ensures { (script : SomeScript) (past : List SomeEntry) →
        AllTellAllowed script past (allowed_entries script past) }
{}

/// Of each entry that is allowed after a legal trace the list tells.
#[tactic(auto, using(crate::proofs::Complete::all_told))]
pub fn what_is_allowed_is_told()
    ensures { (script : SomeScript) (past : List SomeEntry) (e : SomeEntry) →
        IsLegal script past → IsAllowed script past e → TellsOf e (allowed_entries script past) }
{}
