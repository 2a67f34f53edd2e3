//! Laws on what is ready: functions that do nothing, and whose contracts hold of every script and every run of it.
ghost use Rattle.std.specs.Prelude.{◌≡◌, ◌&&◌, ℕ, List, is_some};
ghost use Rattle.std.specs.Option.{option_map};
ghost use Rattle.cam_types.specs.declared.number.FrameNo.{FrameNo as SomeFrame};
ghost use Rattle.cam_types.specs.declared.number.StreamIx.{StreamIx as SomeStream};
ghost use Rattle.cam_types.specs.declared.script.Script.{Script as SomeScript};
ghost use Rattle.device_rows.specs.Ready.{is_delivery_ready, is_early_ready, is_failed_return_ready, is_fill_ready, is_finish_ready, next_error, next_part, shutter_row};
ghost use Rattle.run_model.specs.declared.step.Move.{Move as SomeMove};
ghost use Rattle.run_model.specs.declared.step.StepName.TheVariants.{ReturnFailed, Deliver, Early, Finish};
ghost use Rattle.run_model.specs.History.{trace_of};
ghost use Rattle.run_model.specs.Ready.{error_due, may_take_fill, move_of};
ghost use Rattle.run_model.specs.Rows.{rows};
ghost use Rattle.run_model.specs.Run.{IsRun};
ghost use Rattle.run_rows.specs.Entries.{error_entry, part_entry, shutter_entry};
ghost use Rattle.run_rows.specs.Moves.{delivery_move, early_move, failed_move, finish_move};
ghost use Rattle.trace_model.specs.Fence.{is_signalled};
ghost use Rattle.trace_model.specs.Partial.{partial_due};
ghost use Rattle.trace_model.specs.Shutter.{next_time, shutter_due};

/// The shutter that is due is of the row whose exposure may begin, at the next time.
#[tactic(auto, using(crate::proofs::Sensor::shutter_is))]
pub fn shutters_are_read()
    ensures { (script : SomeScript) (h : List SomeMove) → IsRun script h →
        shutter_due script (trace_of h)
        ≡ option_map (shutter_entry (next_time script (trace_of h))) (shutter_row script.faults (rows script h)) }
{}

/// The partial result of a frame that is due is the next part that the rows name.
#[tactic(auto, using(crate::proofs::Parts::part_is))]
pub fn metadata_is_read()
    ensures { (script : SomeScript) (h : List SomeMove) (n : ℕ) → IsRun script h →
        partial_due script (trace_of h) n ≡ option_map (part_entry n) (next_part script.faults (rows script h) n) }
{}

/// A stage may take a buffer exactly where the rows say so.
#[tactic(auto, using(crate::proofs::Buffers::take_is))]
pub fn fills_are_read()
    ensures { (script : SomeScript) (h : List SomeMove) (n s : ℕ) → IsRun script h →
        may_take_fill script h n s
        ≡ is_fill_ready script.faults (λ f. is_signalled f (trace_of h)) (rows script h) n s }
{}

/// A buffer comes back with its picture exactly where the rows say so: the buffer of the row's target, with no fence.
#[tactic(auto, using(crate::proofs::Moves::delivery_is, crate::proofs::Moves::delivery_ready))]
pub fn deliveries_are_read()
    ensures ready { (script : SomeScript) (h : List SomeMove) (n : SomeFrame) (s : SomeStream) → IsRun script h →
        is_some (move_of script h (Deliver n s)) ≡ is_delivery_ready script.faults (rows script h) n.0 s.0 }
    ensures entry { (script : SomeScript) (h : List SomeMove) (n : SomeFrame) (s : SomeStream) → IsRun script h →
        move_of script h (Deliver n s) ≡ delivery_move script (trace_of h) (rows script h) n s }
{}

/// A buffer comes back early exactly where the script has early returns and the rows say so: the buffer of the row's
/// target, with the next device fence.
#[tactic(auto, using(crate::proofs::Moves::early_is, crate::proofs::Moves::early_ready))]
pub fn early_returns_are_read()
    ensures ready { (script : SomeScript) (h : List SomeMove) (n : SomeFrame) (s : SomeStream) → IsRun script h →
        is_some (move_of script h (Early n s))
        ≡ (script.early && is_early_ready script.faults (rows script h) n.0 s.0) }
    ensures entry { (script : SomeScript) (h : List SomeMove) (n : SomeFrame) (s : SomeStream) → IsRun script h →
        move_of script h (Early n s) ≡ early_move script (trace_of h) (rows script h) n s }
{}

/// The error of a frame that is due is the next that the rows name.
#[tactic(auto, using(crate::proofs::Errors::error_is))]
pub fn errors_are_read()
    ensures { (script : SomeScript) (h : List SomeMove) (n : ℕ) → IsRun script h →
        error_due script (trace_of h) n ≡ option_map error_entry (next_error script.faults (rows script h) n) }
{}

/// A buffer comes back in error exactly where the rows say so: the buffer of the row's target, with its acquire fence
/// where no stage took it and the fence isn't signalled.
#[tactic(auto, using(crate::proofs::Moves::failed_is, crate::proofs::Moves::failed_ready))]
pub fn failed_returns_are_read()
    ensures ready { (script : SomeScript) (h : List SomeMove) (n : SomeFrame) (s : SomeStream) → IsRun script h →
        is_some (move_of script h (ReturnFailed n s)) ≡ is_failed_return_ready (rows script h) n.0 s.0 }
    ensures entry { (script : SomeScript) (h : List SomeMove) (n : SomeFrame) (s : SomeStream) → IsRun script h →
        move_of script h (ReturnFailed n s) ≡ failed_move (trace_of h) (rows script h) n s }
{}

/// The signal of a device fence is ready exactly where the rows say so: it is of the one fence with which the buffer
/// came back early.
#[tactic(auto, using(crate::proofs::Finish::finish_is, crate::proofs::Finish::finish_ready))]
pub fn signals_are_read()
    ensures ready { (script : SomeScript) (h : List SomeMove) (n : SomeFrame) (s : SomeStream) → IsRun script h →
        is_some (move_of script h (Finish n s)) ≡ is_finish_ready (rows script h) n.0 s.0 }
    ensures entry { (script : SomeScript) (h : List SomeMove) (n : SomeFrame) (s : SomeStream) → IsRun script h →
        move_of script h (Finish n s) ≡ finish_move script (trace_of h) (rows script h) n s }
{}
