//! Laws on jobs in hand: functions that do nothing, and whose contracts hold of all jobs.
ghost use Rattle.std.specs.Prelude.{◌≡◌, ◌≢◌, ℕ, ◌+◌, List, None, Some, false, is_some, length, slice_get, true};
ghost use Rattle.cam_types.specs.declared.job.JobView.{JobView as SomeJob};
ghost use Rattle.fill_jobs.specs.Held.{IsWith, frames_differ, held_at, is_held};

/// A job of a frame that none has makes no two jobs of one frame, and nor does taking one out.
pub fn a_job_more_or_less_keeps_frames_apart()
    ensures more { (job : SomeJob) (old new : List SomeJob) → IsWith job old new →
        is_held job.frame.0 old ≡ false → frames_differ old ≡ true → frames_differ new ≡ true }
    ensures less { (job : SomeJob) (old new : List SomeJob) → IsWith job new old →
        frames_differ old ≡ true → frames_differ new ≡ true }
{}

/// A job that was put in is the job of its frame.
pub fn a_job_put_in_is_held()
    ensures { (job : SomeJob) (old new : List SomeJob) → IsWith job old new →
        is_held job.frame.0 old ≡ false → held_at job.frame.0 new ≡ Some job }
{}

/// Once the job of a frame was taken out, there is none of that frame.
pub fn a_job_taken_out_is_held_no_more()
    ensures none { (job : SomeJob) (old new : List SomeJob) → IsWith job new old →
        frames_differ old ≡ true → held_at job.frame.0 new ≡ None }
    ensures held { (job : SomeJob) (old new : List SomeJob) → IsWith job new old →
        frames_differ old ≡ true → is_held job.frame.0 new ≡ false }
{}

/// The jobs of other frames stay as they are.
pub fn other_frames_stay()
    ensures jobs { (job : SomeJob) (old new : List SomeJob) (n : ℕ) → IsWith job old new →
        job.frame.0 ≢ n → held_at n new ≡ held_at n old }
    ensures held { (job : SomeJob) (old new : List SomeJob) (n : ℕ) → IsWith job old new →
        job.frame.0 ≢ n → is_held n new ≡ is_held n old }
{}

/// There is one job more.
pub fn there_is_one_job_more()
    ensures { (job : SomeJob) (old new : List SomeJob) → IsWith job old new → length new ≡ length old + 1 }
{}

/// The first job is the one that is found by its frame.
pub fn the_first_job_is_found_by_its_frame()
    ensures { (job : SomeJob) (jobs : List SomeJob) →
        slice_get jobs 0 ≡ Some job → held_at job.frame.0 jobs ≡ Some job }
{}

/// Where a job of a frame is held it is found, and else there is none.
pub fn a_held_job_is_found()
    ensures { (jobs : List SomeJob) (n : ℕ) → is_held n jobs ≡ is_some (held_at n jobs) }
{}
