//! Laws on the rows of a run as they stand: functions that do nothing, and whose contracts hold of every script and
//! every run of it.
ghost use Rattle.std.specs.Prelude.{◌≡◌, ◌≤◌, ◌∷◌, ℕ, List, Bool, Some, is_some, length, true};
ghost use Rattle.cam_types.specs.declared.four.Four.{Four as SomeFour};
ghost use Rattle.cam_types.specs.declared.job.FillTarget.{FillTarget as SomeTarget};
ghost use Rattle.cam_types.specs.declared.job.JobView.{JobView as SomeJob};
ghost use Rattle.cam_types.specs.declared.number.FrameNo.{FrameNo as SomeFrame};
ghost use Rattle.cam_types.specs.declared.number.RequestId.{RequestId as SomeRequest};
ghost use Rattle.cam_types.specs.declared.script.Script.{Script as SomeScript};
ghost use Rattle.cam_types.specs.declared.item.Settings.{Settings as SomeSettings};
ghost use Rattle.device_rows.specs.Kept.{is_fresh};
ghost use Rattle.device_rows.specs.Jobs.{fill_job_at, sensor_job_at};
ghost use Rattle.run_model.specs.History.{trace_of};
ghost use Rattle.run_model.specs.Jobs.{IsFillJob, IsSensorJob, is_fill_out, is_sensor_out};
ghost use Rattle.run_model.specs.Rows.{rows};
ghost use Rattle.run_model.specs.Run.{IsRun};
ghost use Rattle.run_model.specs.declared.step.Move.{Move as SomeMove};
ghost use Rattle.run_rows.specs.Changes.{fresh_row};
ghost use Rattle.state_facts.specs.Turns.{settings_next};
ghost use Rattle.trace_model.specs.Queue.{next};
ghost use Rattle.run_rows.specs.Kept.{EachRow, IsSound, are_below, are_stopped_with, frames_rise, has_few_parts, has_given_fences, has_its_readout, has_pictures_late, has_some_target, has_streams, is_in_range, is_no_row};
ghost use Rattle.trace_model.specs.Configuration.{streams};
ghost use Rattle.trace_model.specs.Numbers.{next_fence};
ghost use Rattle.trace_model.specs.Open.{is_quiet, open_count};
ghost use Rattle.trace_model.specs.Stopping.{is_stopping};
ghost use Rattle.trace_model.specs.declared.entry.Entry.TheVariants.{Send};
ghost use Rattle.trace_model.specs.declared.entry.Sent.{Sent as SomeSent};

/// A job of the sensor is out exactly where the row of its frame says so, and it is the one that the row tells.
#[tactic(auto, using(crate::proofs::Work::sensor_is, crate::proofs::WorkJobs::sensor_job_from, crate::proofs::WorkJobs::sensor_job_to))]
pub fn sensor_jobs_are_read()
    ensures out { (script : SomeScript) (h : List SomeMove) (n : ℕ) → IsRun script h →
        is_sensor_out h n ≡ is_some (sensor_job_at n (rows script h)) }
    ensures told { (script : SomeScript) (h : List SomeMove) (job : SomeJob) → IsRun script h →
        IsSensorJob script h job → sensor_job_at job.frame.0 (rows script h) ≡ Some job }
    ensures tells { (script : SomeScript) (h : List SomeMove) (job : SomeJob) → IsRun script h →
        sensor_job_at job.frame.0 (rows script h) ≡ Some job → IsSensorJob script h job }
{}

/// A job of a stage is out exactly where the row of its frame says so, and it is the one that the row tells.
#[tactic(auto, using(crate::proofs::WorkJobs::fill_is, crate::proofs::WorkJobs::fill_job_from, crate::proofs::WorkJobs::fill_job_to))]
pub fn fill_jobs_are_read()
    ensures out { (script : SomeScript) (h : List SomeMove) (n s : ℕ) → IsRun script h →
        is_fill_out h n s ≡ is_some (fill_job_at (streams script (trace_of h)) n s (rows script h)) }
    ensures told { (script : SomeScript) (h : List SomeMove) (job : SomeJob) (target : SomeTarget) → IsRun script h →
        IsFillJob script h job target →
        fill_job_at (streams script (trace_of h)) job.frame.0 target.stream.0 (rows script h) ≡ Some job }
    ensures tells { (script : SomeScript) (h : List SomeMove) (job : SomeJob) (target : SomeTarget) → IsRun script h →
        job.fill ≡ Some target →
        fill_job_at (streams script (trace_of h)) job.frame.0 target.stream.0 (rows script h) ≡ Some job →
        IsFillJob script h job target }
{}

/// How many frames are open, whether any is, that no more are open than the device takes, and that each of them is
/// stopped where the service is stopping, and none else.
#[tactic(auto, using(crate::proofs::Counted::count_is, crate::proofs::Counted::quiet_is, crate::proofs::Counted::few, crate::proofs::Standing::stopped_is))]
pub fn open_frames_are_counted()
    ensures count { (script : SomeScript) (h : List SomeMove) → open_count (trace_of h) ≡ length (rows script h) }
    ensures quiet { (script : SomeScript) (h : List SomeMove) → is_quiet (trace_of h) ≡ is_no_row (rows script h) }
    ensures few { (script : SomeScript) (h : List SomeMove) → IsRun script h →
        length (rows script h) ≤ script.profile.depth }
    ensures stopped { (script : SomeScript) (h : List SomeMove) → IsRun script h →
        are_stopped_with (is_stopping (trace_of h)) (rows script h) ≡ true }
{}

/// The frames of the rows rise, and a frame that is sent is above them all.
#[tactic(auto, using(crate::proofs::Counted::frames_rise_is, crate::proofs::Counted::sends_above))]
pub fn frames_are_in_order()
    ensures rise { (script : SomeScript) (h : List SomeMove) → IsRun script h → frames_rise (rows script h) ≡ true }
    ensures above { (script : SomeScript) (m : SomeMove) (h : List SomeMove) (n : SomeFrame) (r : SomeRequest) (i : ℕ)
        (same : Bool) (targets : SomeFour SomeSent) → IsRun script (m ∷ h) → m.entry ≡ Some (Send n r i same targets) →
        are_below n.0 (rows script h) ≡ true }
{}

/// Each row has a target, its streams rise and are the configuration's, its acquire fences were released, its settings
/// are in their ranges, and at most three partial results of it were sent.
#[tactic(auto, using(crate::proofs::Counted::targets_is, crate::proofs::Counted::streams_is, crate::proofs::Given::fences_is, crate::proofs::Counted::range_is, crate::proofs::Counted::parts_is))]
pub fn rows_are_as_they_were_sent()
    ensures targets { (script : SomeScript) (h : List SomeMove) → EachRow has_some_target script h }
    ensures streams { (script : SomeScript) (h : List SomeMove) → EachRow (has_streams (length (streams script (trace_of h)))) script h }
    ensures fences { (script : SomeScript) (h : List SomeMove) → EachRow (has_given_fences (next_fence (trace_of h))) script h }
    ensures range { (script : SomeScript) (h : List SomeMove) → EachRow is_in_range script h }
    ensures parts { (script : SomeScript) (h : List SomeMove) → EachRow has_few_parts script h }
{}

/// A stage has the readout of a frame exactly where it fills a buffer of it, and one alone, and a buffer has its
/// picture only once the sensor's work on the frame is done.
#[tactic(auto, using(crate::proofs::Agree::readout_is, crate::proofs::Agree::pictures_is))]
pub fn places_agree()
    ensures readout { (script : SomeScript) (h : List SomeMove) → EachRow has_its_readout script h }
    ensures pictures { (script : SomeScript) (h : List SomeMove) → EachRow has_pictures_late script h }
{}

/// The row of a frame that is sent is one of which nothing began; it has a target, its streams rise and are the
/// configuration's, and its settings are in their ranges.
#[tactic(auto, using(crate::proofs::Sending::fresh_is, crate::proofs::Sending::sent_sound))]
pub fn sent_rows_are_fresh()
    ensures fresh { (settings : SomeSettings) (n : SomeFrame) (r : SomeRequest) (targets : SomeFour SomeSent) →
        is_fresh (fresh_row settings n r targets) ≡ true }
    ensures sound { (script : SomeScript) (m : SomeMove) (h : List SomeMove) (n : SomeFrame) (r : SomeRequest) (i : ℕ)
        (same : Bool) (targets : SomeFour SomeSent) → IsRun script (m ∷ h) → m.entry ≡ Some (Send n r i same targets) →
        IsSound (length (streams script (trace_of h)))
        (fresh_row (settings_next (next script (trace_of h))) n r targets) }
{}
