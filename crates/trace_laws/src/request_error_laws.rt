//! The law of request errors.
ghost use Rattle.std.specs.Prelude.{◌≡◌, ◌++◌, ℕ, List, false, true};
ghost use Rattle.std.specs.List.{list_any};
ghost use Rattle.cam_types.specs.declared.script.Script.{Script as SomeScript};
ghost use Rattle.trace_model.specs.declared.entry.Entry.{Entry as SomeEntry};
ghost use Rattle.trace_model.specs.Allowed.{IsAllowed};
ghost use Rattle.trace_model.specs.Frames.{has_error_request};
ghost use Rattle.trace_model.specs.Legal.{IsLegal};
ghost use Rattle.trace_laws.specs.Good.{is_good_of};

/// Behind a frame's request error nothing good of that frame comes: no metadata, no buffer with its picture, and no
/// early one. So each of its buffers that is still out comes back in error.
#[tactic(auto, using(crate::proofs::Nothing::not_good))]
pub fn nothing_good_comes_after_a_request_error()
    ensures next { (script : SomeScript) (past : List SomeEntry) (e : SomeEntry) (n : ℕ) → IsAllowed script past e
        → has_error_request n past ≡ true → is_good_of n e ≡ false }
    ensures later { (script : SomeScript) (past later : List SomeEntry) (n : ℕ) → IsLegal script (later ++ past)
        → has_error_request n past ≡ true → list_any (is_good_of n) later ≡ false }
{}
