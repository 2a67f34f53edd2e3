//! Laws of the conditions: functions that do nothing, and whose contracts hold of every script and every past.
ghost use Rattle.std.specs.Prelude.{◌≡◌, ◌↔◌, List, Option, IsTrue};
ghost use Rattle.std.specs.List.{list_all};
ghost use Rattle.cam_types.specs.declared.script.Script.{Script as SomeScript};
ghost use Rattle.rule_conditions.specs.Conditions.{conditions_of, first_failed, holds};
ghost use Rattle.trace_model.specs.Allowed.{IsAllowed};
ghost use Rattle.trace_model.specs.declared.entry.Entry.{Entry as SomeEntry};

/// An entry is allowed after a past exactly where it meets all conditions of its kind: so exactly where there is no
/// first one that it doesn't meet.
pub fn what_is_allowed_meets_its_conditions()
    ensures all { (script : SomeScript) (past : List SomeEntry) (e : SomeEntry) →
        (IsTrue (list_all (holds script past e) (conditions_of e)) ↔ IsAllowed script past e) }
    ensures first { (script : SomeScript) (past : List SomeEntry) (e : SomeEntry) →
        ((first_failed script past e ≡ Option.None) ↔ IsAllowed script past e) }
{}
