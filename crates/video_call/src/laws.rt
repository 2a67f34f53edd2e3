//! Laws of films: functions that do nothing, and whose contracts hold of every script and every legal trace.
ghost use Rattle.std.specs.Prelude.{◌≡◌, ℕ, List, ◌∷◌, Some};
ghost use Rattle.cam_types.specs.declared.script.Script.{Script as SomeScript};
ghost use Rattle.sha2.specs.Sha256.{sha256};
ghost use Rattle.video_call.specs.Film.{brought, shot_for};
ghost use Rattle.video_call.specs.declared.shot.Shot.{Shot as SomeShot};
ghost use Rattle.trace_model.specs.Legal.{IsLegal};
ghost use Rattle.trace_model.specs.declared.entry.Entry.{Entry as SomeEntry};
ghost use Rattle.video_call.specs.Shows.{bytes_of};
ghost use Rattle.video_call.specs.Digests.{digest_in};

/// The picture of a film is the one whose digest stands in the trace: at the line by which its good buffer came back, or
/// by which its device fence was signalled.
pub fn the_digest_is_the_pictures()
    ensures { (script : SomeScript) (past : List SomeEntry) (e : SomeEntry) (s : ℕ) (shot : SomeShot) →
        IsLegal script (e ∷ past) → shot_for script past s (brought past e) ≡ Some shot →
        digest_in e ≡ sha256 (bytes_of shot) }
{}
