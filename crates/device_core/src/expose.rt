//! Exposures that begin; which begins next, and which are under way.

ghost use Rattle.std.specs.Prelude.{◌≡◌, Some, is_some, IfSome, IsNone};
ghost use Rattle.std.specs.Option.{option_map};
ghost use Rattle.device_rows.specs.Jobs.{sensor_job, sensor_job_at};
ghost use Rattle.device_rows.specs.Ready.{next_exposure, shutter_row};
ghost use Rattle.device_rows.specs.Rows.{exposed, row_at, with_row};
ghost use Rattle.device_core.specs.View.{with_rows};

use crate::device::Device;
use cam_types::{FrameNo, RowView};
use device_rows::{is_sensor_out, may_expose};
use picture_stages::SensorJob;

impl Device {
    /// The row whose exposure `shutter` begins. None exactly where it begins none.
    pub fn shutter_due(&self) -> Option<RowView>
        ensures due { result ≡ shutter_row self.now.faults self.now.rows }
        ensures found { IfSome result (λ row. row_at row.frame.0 self.now.rows ≡ Some row) }
        ensures next { IfSome result (λ row. next_exposure self.now.rows ≡ Some row) }
    {
        let row = self.store.next_exposure()?;
        if !may_expose(self.faults.as_slice(), row) {
            return None;
        }
        Some(row)
    }

    /// Whether the sensor has a frame.
    pub fn has_sensor_job(&self, frame: FrameNo) -> bool
        ensures { result ≡ is_some (sensor_job_at frame.0 self.now.rows) }
    {
        match self.store.view(frame) {
            Some(row) => is_sensor_out(row.sensor),
            None => false,
        }
    }

    /// Begins the next exposure at this time, and gives the sensor's job: that of the first frame without a shutter
    /// that didn't fail whole. None exactly where there is no such frame, it was stopped, or the device shall fail at
    /// it.
    pub fn shutter(&mut self, time: u64) -> Option<SensorJob>
        ensures job { result ≡ option_map sensor_job (shutter_row self.old.faults self.old.rows) }
        ensures rows { IfSome result
            (λ job. self.new ≡ with_rows (with_row job.frame.0 (exposed time) self.old.rows) self.old) }
        ensures unchanged { IsNone result → self.new ≡ self.old }
    {
        let row = self.shutter_due()?;
        Some(self.store.expose(row.frame, time))
    }
}
