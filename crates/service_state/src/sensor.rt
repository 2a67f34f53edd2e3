//! Exposures begin, and end.
ghost use Rattle.std.specs.Prelude.{◌≡◌, ◌+◌, ◌<◌, ◌^◌, None, max};
ghost use Rattle.std.specs.Option.{option_map};
ghost use Rattle.cam_types.specs.Limits.{frame_time};
ghost use Rattle.run_model.specs.declared.step.StepName.TheVariants.{SensorDone, Shutter};
ghost use Rattle.device_rows.specs.Jobs.{IsSensorJobOut, sensor_job};
ghost use Rattle.device_rows.specs.Ready.{shutter_row};
ghost use Rattle.device_rows.specs.Rows.{row_at};
ghost use Rattle.service_parts.specs.Moves.{settings_at};
ghost use Rattle.service_state.specs.Answers.{Answers, Makes, move_with};
ghost use Rattle.service_state.specs.Serving.{IsServing};

use crate::state::ServiceState;
use cam_types::{FRAME_TIME, FrameNo, RowView};
use device_core::Device;
use picture_stages::{ExposedJob, SensorJob};
use trace_model::Entry;

impl ServiceState {
    /// Begins the next exposure, and gives the sensor's job. None exactly where no frame waits for its exposure, the
    /// service is stopping, or the device shall fail at the frame.
    pub fn shutter(&mut self) -> Option<(Entry, SensorJob)>
        requires { IsServing self.old }
        ensures step { Answers Shutter self.old (option_map (λ begun. begun.0) result) self.new }
        ensures job { option_map (λ begun. begun.1) result ≡
            option_map sensor_job (shutter_row self.old.script.faults self.old.parts.rows) }
    {
        let time = self.clock;
        let job = self.device.shutter(time)?;
        let frame = job.frame();
        self.clock = next_shutter(time, exposure_of(&self.device, frame));
        Some((Entry::Shutter { frame, time }, job))
    }

    /// Takes the readout back from the sensor, whose job is out.
    pub fn sensor_done(&mut self, job: ExposedJob)
        requires serving { IsServing self.old }
        requires out { IsSensorJobOut self.old.parts.rows job }
        ensures { Makes self.old self.new (move_with (SensorDone job.frame) None) }
    {
        self.device.sensor_done(job);
    }
}

/// The exposure time of a frame whose row stands, in nanoseconds.
fn exposure_of(device: &Device, frame: FrameNo) -> u64
    ensures { result ≡ (settings_at (row_at frame.0 device.now.rows)).exposure }
{
    match device.view(frame) {
        Some(row) => row.settings.exposure,
        None => 0,
    }
}

/// The next shutter follows one by the time of a frame, or by its exposure if that is more.
fn next_shutter(time: u64, exposure: u64) -> u64
    requires { time + max frame_time exposure < 2 ^ 64 }
    ensures { result ≡ time + max frame_time exposure }
{
    time + exposure.max(FRAME_TIME)
}
