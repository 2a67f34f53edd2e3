//! Laws on the whole state: functions that do nothing, and whose contracts hold of every script and every past.
ghost use Rattle.std.specs.Prelude.{◌≡◌, ◌∷◌, ℕ, [], List};
ghost use Rattle.cam_types.specs.declared.script.Script.{Script as SomeScript};
ghost use Rattle.trace_model.specs.declared.entry.Entry.{Entry as SomeEntry};
ghost use Rattle.trace_model.specs.Allowed.{IsAllowed};
ghost use Rattle.trace_model.specs.Drop.{drop_due};
ghost use Rattle.trace_model.specs.Errors.{error_buffer_due, error_device_due, error_request_due, error_result_due, failed_due};
ghost use Rattle.trace_model.specs.Filled.{early_due, filled_due, late_due};
ghost use Rattle.trace_model.specs.Legal.{IsLegal};
ghost use Rattle.trace_model.specs.Partial.{partial_due};
ghost use Rattle.trace_model.specs.Send.{send_due};
ghost use Rattle.trace_model.specs.Shutter.{shutter_due};
ghost use Rattle.state_facts.specs.Fits.{FitsTypes};
ghost use Rattle.state_facts.specs.Runs.{IsRun, MayAdd, no_state, run};
ghost use Rattle.state_facts.specs.States.{drop_in, early_in, error_buffer_in, error_device_in, error_request_in, error_result_in, failed_in, filled_in, late_in, state_after, partial_in, send_in, shutter_in, state};

/// Before the first entry nothing waits, there are no buffers, nothing is called and no frame is open; the state after each
/// entry of a legal run is what the entry makes of the state before it.
#[tactic(auto, using(crate::proofs::StateSteps::noted_is))]
pub fn each_entry_is_noted()
    ensures first { (script : SomeScript) → state script [] ≡ no_state }
    ensures next { (script : SomeScript) (past : List SomeEntry) (e : SomeEntry) →
        IsLegal script (e ∷ past) → state script (e ∷ past) ≡ state_after script e (state script past) }
{}

/// Every send, drop and entry of a frame that is due is read from the state: that of a frame from its row, if it is
/// open.
#[tactic(auto, using(crate::proofs::StateSends::send_is, crate::proofs::StateSends::drop_is, crate::proofs::StateFrames::shutter_is, crate::proofs::StateFrames::error_device_is, crate::proofs::StateFrames::partial_is, crate::proofs::StateFrames::error_request_is, crate::proofs::StateFrames::error_result_is, crate::proofs::StateFrames::error_buffer_is, crate::proofs::StateFrames::failed_is, crate::proofs::StateFrames::filled_is, crate::proofs::StateFrames::early_is, crate::proofs::StateFrames::late_is))]
pub fn due_entries_are_read()
    ensures send { (script : SomeScript) (past : List SomeEntry) →
        IsLegal script past → send_due script past ≡ send_in script (state script past) }
    ensures drop { (script : SomeScript) (past : List SomeEntry) → drop_due script past ≡ drop_in (state script past) }
    ensures shutter { (script : SomeScript) (past : List SomeEntry) →
        IsLegal script past → shutter_due script past ≡ shutter_in script (state script past) }
    ensures device { (script : SomeScript) (past : List SomeEntry) →
        IsLegal script past → error_device_due script past ≡ error_device_in script (state script past) }
    ensures partial { (script : SomeScript) (past : List SomeEntry) (n : ℕ) →
        IsLegal script past → partial_due script past n ≡ partial_in script (state script past) n }
    ensures request { (script : SomeScript) (past : List SomeEntry) (n : ℕ) →
        IsLegal script past → error_request_due script past n ≡ error_request_in script (state script past) n }
    ensures result { (script : SomeScript) (past : List SomeEntry) (n : ℕ) →
        IsLegal script past → error_result_due script past n ≡ error_result_in script (state script past) n }
    ensures buffer { (script : SomeScript) (past : List SomeEntry) (n s : ℕ) →
        IsLegal script past → error_buffer_due script past n s ≡ error_buffer_in script (state script past) n s }
    ensures failed { (script : SomeScript) (past : List SomeEntry) (n s : ℕ) →
        IsLegal script past → failed_due past n s ≡ failed_in (state script past) n s }
    ensures filled { (script : SomeScript) (past : List SomeEntry) (n s : ℕ) →
        IsLegal script past → filled_due script past n s ≡ filled_in script (state script past) n s }
    ensures early { (script : SomeScript) (past : List SomeEntry) (n s : ℕ) →
        IsLegal script past → early_due script past n s ≡ early_in script (state script past) n s }
    ensures late { (script : SomeScript) (past : List SomeEntry) (d : ℕ) →
        IsLegal script past → late_due script past d ≡ late_in (state script past) d }
{}

/// A trace is legal exactly where each entry is due by the state that those before it left, and that is the state of
/// its past.
#[tactic(auto, using(crate::proofs::Runs::may_add_from, crate::proofs::Runs::allowed_from, crate::proofs::Runs::run_is, crate::proofs::Runs::run_from, crate::proofs::Runs::legal_from))]
pub fn runs_are_the_legal_traces()
    ensures due { (script : SomeScript) (past : List SomeEntry) (e : SomeEntry) →
        IsLegal script past → IsAllowed script past e → MayAdd script (state script past) e }
    ensures allowed { (script : SomeScript) (past : List SomeEntry) (e : SomeEntry) →
        IsLegal script past → MayAdd script (state script past) e → IsAllowed script past e }
    ensures state { (script : SomeScript) (past : List SomeEntry) →
        IsLegal script past → state script past ≡ run script past }
    ensures run { (script : SomeScript) (past : List SomeEntry) → IsLegal script past → IsRun script past }
    ensures legal { (script : SomeScript) (past : List SomeEntry) → IsRun script past → IsLegal script past }
{}

/// Each number of the state of a legal run of a valid script fits its type: 32 bits, and 64 for times.
pub fn numbers_fit_their_types()
    ensures { (script : SomeScript) (past : List SomeEntry) → FitsTypes script past }
{}
