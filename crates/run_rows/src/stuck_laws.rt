//! Laws of runs: functions that do nothing, and whose contracts hold of every script and every history.
ghost use Rattle.std.specs.Prelude.{List};
ghost use Rattle.cam_types.specs.declared.script.Script.{Script as SomeScript};
ghost use Rattle.run_model.specs.declared.step.Move.{Move as SomeMove};
ghost use Rattle.run_rows.specs.StuckLaws.{FillsKeepBuffers, HasCandidates, NeverStuck, NeverWaitsIdly, NoFillAtRest, NoSensorAtRest, SensorKeepsBuffers};

/// A run of a valid script never gets stuck: it is complete, or some step is ready. Where no job is out, some step
/// other than giving one back is.
#[tactic(auto, using(crate::proofs::Stuck::never_stuck, crate::proofs::Stuck::has_candidates, crate::proofs::Stuck::never_idle))]
pub fn a_run_is_never_stuck()
    ensures stuck { (script : SomeScript) (h : List SomeMove) → NeverStuck script h }
    ensures candidates { (script : SomeScript) (h : List SomeMove) → HasCandidates script h }
    ensures idle { (script : SomeScript) (h : List SomeMove) → NeverWaitsIdly script h }
{}

/// While a fill is out the device isn't done with its buffer, while the sensor has a frame no buffer of it comes back,
/// and while no frame is open no job is out.
#[tactic(auto, using(crate::proofs::Resting::fills_keep_buffers, crate::proofs::Resting::no_fill_at_rest, crate::proofs::Resting::no_sensor_at_rest))]
pub fn jobs_are_of_open_frames()
    ensures fills { (script : SomeScript) (h : List SomeMove) → FillsKeepBuffers script h }
    ensures sensor { (script : SomeScript) (h : List SomeMove) → SensorKeepsBuffers script h }
    ensures idle { (script : SomeScript) (h : List SomeMove) → NoSensorAtRest script h }
    ensures rest { (script : SomeScript) (h : List SomeMove) → NoFillAtRest script h }
{}
