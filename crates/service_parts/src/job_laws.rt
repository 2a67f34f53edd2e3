//! Laws on the jobs that are out: functions that do nothing, and whose contracts hold of every script and every run.
ghost use Rattle.std.specs.Prelude.{◌≡◌, ◌<◌, ◌≤◌, ◌∷◌, ℕ, [], List, IsTrue, None, Some, false, length, true};
ghost use Rattle.cam_types.specs.Script.{is_valid};
ghost use Rattle.cam_types.specs.declared.job.JobView.{JobView as SomeJob};
ghost use Rattle.cam_types.specs.declared.number.FrameNo.{FrameNo as SomeFrame};
ghost use Rattle.cam_types.specs.declared.number.StreamIx.{StreamIx as SomeStream};
ghost use Rattle.cam_types.specs.declared.script.Script.{Script as SomeScript};
ghost use Rattle.fill_jobs.specs.Held.{IsWith, fill_job_in, held_at, sensor_job_in};
ghost use Rattle.service_parts.specs.Outs.{AreOut, Takes, moves_a_job, takes_a_job};
ghost use Rattle.run_model.specs.History.{trace_of};
ghost use Rattle.run_model.specs.Jobs.{IsJobOut};
ghost use Rattle.run_model.specs.Ready.{move_of};
ghost use Rattle.run_model.specs.Run.{IsRun};
ghost use Rattle.run_model.specs.declared.step.Move.{Move as SomeMove};
ghost use Rattle.run_model.specs.declared.step.StepName.TheVariants.{FillDone, SensorDone};
ghost use Rattle.trace_model.specs.Complete.{IsComplete};
ghost use Rattle.trace_model.specs.Open.{is_quiet};

/// Before the first move no job is out.
#[tactic(auto, using(crate::proofs::Moved::none_at_first))]
pub fn no_job_is_out_at_first()
    ensures { (script : SomeScript) → AreOut script [] [] }
{}

/// A move that takes no job and gives none back leaves those that are out as they are.
#[tactic(auto, using(crate::proofs::Moved::others_leave))]
pub fn other_moves_leave_the_jobs()
    ensures { (script : SomeScript) (m : SomeMove) (h : List SomeMove) (jobs : List SomeJob) → IsRun script (m ∷ h) →
        moves_a_job m.step ≡ false → AreOut script h jobs → AreOut script (m ∷ h) jobs }
{}

/// A move that takes a job out takes it of a frame that has none out, and adds it to those that are.
#[tactic(auto, using(crate::proofs::Moved::none_before))]
pub fn a_move_takes_a_job_out()
    ensures free { (script : SomeScript) (m : SomeMove) (h : List SomeMove) (jobs : List SomeJob) (job : SomeJob) →
        IsRun script (m ∷ h) → AreOut script h jobs → Takes m job → IsJobOut script (m ∷ h) job →
        held_at job.frame.0 jobs ≡ None }
    ensures out { (script : SomeScript) (m : SomeMove) (h : List SomeMove) (jobs new : List SomeJob) (job : SomeJob) →
        IsRun script (m ∷ h) → AreOut script h jobs → Takes m job → IsJobOut script (m ∷ h) job →
        IsWith job jobs new → AreOut script (m ∷ h) new }
{}

/// A shutter, and the taking of a buffer, take some job out.
#[tactic(auto, using(crate::proofs::JobGiven::some_taken))]
pub fn some_job_is_taken()
    ensures { (script : SomeScript) (m : SomeMove) (h : List SomeMove) → IsRun script (m ∷ h) →
        takes_a_job m.step ≡ true → (job : SomeJob) × Takes m job × IsJobOut script (m ∷ h) job }
{}

/// Where the sensor is done with a frame, or a stage with a buffer, its job is out no more, and the others still are.
pub fn a_move_gives_a_job_back()
    ensures sensor { (script : SomeScript) (m : SomeMove) (h : List SomeMove) (jobs new : List SomeJob) (job : SomeJob)
        (n : SomeFrame) → IsRun script (m ∷ h) → AreOut script h jobs → m.step ≡ SensorDone n →
        sensor_job_in (held_at n.0 jobs) ≡ Some job → IsWith job new jobs → AreOut script (m ∷ h) new }
    ensures fill { (script : SomeScript) (m : SomeMove) (h : List SomeMove) (jobs new : List SomeJob) (job : SomeJob)
        (n : SomeFrame) (s : SomeStream) → IsRun script (m ∷ h) → AreOut script h jobs → m.step ≡ FillDone n s →
        fill_job_in s.0 (held_at n.0 jobs) ≡ Some job → IsWith job new jobs → AreOut script (m ∷ h) new }
{}

/// Two jobs of one frame that are out are the same: the sensor's and a stage's aren't out at once, nor two stages'.
#[tactic(auto, using(crate::proofs::One::one_job))]
pub fn a_frame_has_one_job()
    ensures { (script : SomeScript) (h : List SomeMove) (a b : SomeJob) → IsRun script h →
        IsJobOut script h a → IsJobOut script h b → a.frame ≡ b.frame → a ≡ b }
{}

/// No more jobs are out than frames may be open, which in a valid script are sixteen at most, and fewer where one more
/// is about to be taken.
#[tactic(auto, using(crate::proofs::Few::jobs_few, crate::proofs::Few::depth_few, crate::proofs::Few::room_left))]
pub fn few_jobs_are_out()
    ensures jobs { (script : SomeScript) (h : List SomeMove) (jobs : List SomeJob) → IsRun script h →
        AreOut script h jobs → length jobs ≤ script.profile.depth }
    ensures depth { (script : SomeScript) → IsTrue (is_valid script) → script.profile.depth ≤ 16 }
    ensures room { (script : SomeScript) (m : SomeMove) (h : List SomeMove) (jobs : List SomeJob) →
        IsRun script (m ∷ h) → AreOut script h jobs → takes_a_job m.step ≡ true →
        length jobs < script.profile.depth }
{}

/// While no frame is open, and so once the run is complete, no job is out.
#[tactic(auto, using(crate::proofs::Few::none_at_rest, crate::proofs::Few::none_at_end))]
pub fn no_job_is_out_at_rest()
    ensures rest { (script : SomeScript) (h : List SomeMove) (jobs : List SomeJob) → IsRun script h →
        IsTrue (is_quiet (trace_of h)) → AreOut script h jobs → jobs ≡ [] }
    ensures end { (script : SomeScript) (h : List SomeMove) (jobs : List SomeJob) → IsRun script h →
        IsComplete script (trace_of h) → AreOut script h jobs → jobs ≡ [] }
{}

/// Where the sensor may be done with a frame, or a stage with a buffer, the job that ends is among those that are out.
#[tactic(auto, using(crate::proofs::JobGiven::fill_ends))]
pub fn jobs_that_end_are_out()
    ensures sensor { (script : SomeScript) (m : SomeMove) (h : List SomeMove) (jobs : List SomeJob) (n : SomeFrame) →
        IsRun script h → AreOut script h jobs → move_of script h (SensorDone n) ≡ Some m →
        (job : SomeJob) × (sensor_job_in (held_at n.0 jobs) ≡ Some job) × IsJobOut script h job }
    ensures fill { (script : SomeScript) (m : SomeMove) (h : List SomeMove) (jobs : List SomeJob) (n : SomeFrame)
        (s : SomeStream) → IsRun script h → AreOut script h jobs → move_of script h (FillDone n s) ≡ Some m →
        (job : SomeJob) × (fill_job_in s.0 (held_at n.0 jobs) ≡ Some job) × IsJobOut script h job }
{}
