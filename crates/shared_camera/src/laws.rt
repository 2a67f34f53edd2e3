//! Laws on the jobs that are out: functions that do nothing, and whose contracts hold of every run.
ghost use Rattle.std.specs.Prelude.{List, [], IsPermutation};
ghost use Rattle.cam_types.specs.declared.script.Script.{Script as SomeScript};
ghost use Rattle.service_parts.specs.Outs.{AreOut};
ghost use Rattle.run_model.specs.Run.{IsRun};
ghost use Rattle.run_model.specs.declared.step.Move.{Move as SomeMove};
ghost use Rattle.shared_camera.specs.JobsOut.{jobs_out};

/// After each run the jobs that its history determines are just those that are out.
#[tactic(auto, using(crate::proofs::Outs::are_out))]
pub fn the_jobs_that_are_out()
    ensures { (script : SomeScript) (h : List SomeMove) → IsRun script h → AreOut script h (jobs_out script h) }
{}

/// Where a root has no job as its camera is closed, no job of the service is out: what `settle`, `play` and `close` of
/// `settle` ask of a service with empty hands. A root that `run_workers` leaves has none.
pub fn no_job_is_out_of_an_idle_root()
    ensures { (script : SomeScript) (h : List SomeMove) → IsRun script h → IsPermutation (jobs_out script h) []
        → AreOut script h [] }
{
    the_jobs_that_are_out();
}
