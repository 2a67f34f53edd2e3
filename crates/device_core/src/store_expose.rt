//! The sensor takes a readout and gives it back.
ghost use Rattle.std.specs.Prelude.{◌≡◌, Some, IsTrue};
ghost use Rattle.std.specs.Option.{option_map};
ghost use Rattle.device_rows.specs.Jobs.{IsSensorJobOut, sensor_job};
ghost use Rattle.device_rows.specs.Rows.{exposed, row_at, sensor_home, with_row};
ghost use Rattle.device_core.specs.Steps.{is_dark};
ghost use Rattle.device_core.specs.Stored.{with_rows};

use crate::place::{find_row, swap_slot};
use crate::readouts::{HomeReadout, Slot};
use crate::store::Store;
use cam_types::{FrameNo, SensorPlace};
use device_rows::Mark;
use picture_stages::{ExposedJob, SensorJob};

impl Store {
    /// Begins the exposure of a frame that has no shutter and didn't fail whole, and gives the sensor's job.
    pub fn expose(&mut self, frame: FrameNo, time: u64) -> SensorJob
        requires { IsTrue (is_dark (row_at frame.0 self.old.rows)) }
        ensures job { option_map sensor_job (row_at frame.0 self.old.rows) ≡ Some result }
        ensures rows { self.new ≡ with_rows (with_row frame.0 (exposed time) self.old.rows) self.old }
    {
        let (place, row) = find_row(&self.table, frame);
        let scratch = match swap_slot(&mut self.slots, place, Slot::Away) {
            Slot::Spare(scratch) => scratch,
            Slot::Home(_) => unreachable!(),
            Slot::Away => unreachable!(),
        };
        let _ = self.table.mark(frame, Mark::Shutter(time));
        let _ = self.table.mark(frame, Mark::Sensor(SensorPlace::Out));
        SensorJob::new(row.frame, row.settings, scratch.into_readout())
    }

    /// Takes the readout back from the sensor, whose job is out.
    pub fn take_exposed(&mut self, job: ExposedJob)
        requires { IsSensorJobOut self.old.rows job }
        ensures { self.new ≡ with_rows (with_row job.frame.0 sensor_home self.old.rows) self.old }
    {
        let frame = job.frame();
        let (place, _row) = find_row(&self.table, frame);
        let home = HomeReadout::of_exposed(job);
        let _ = swap_slot(&mut self.slots, place, Slot::Home(home));
        let _ = self.table.mark(frame, Mark::Sensor(SensorPlace::Home));
    }
}
