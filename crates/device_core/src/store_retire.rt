//! The row of a frame that is done with goes, and its readout is spare again.
ghost use Rattle.std.specs.Prelude.{◌≡◌, IsTrue};
ghost use Rattle.device_rows.specs.Ready.{is_retire_ready};
ghost use Rattle.device_rows.specs.Rows.{without};
ghost use Rattle.device_core.specs.Stored.{with_rows};

use crate::place::find_row;
use crate::readouts::Slot;
use crate::store::Store;
use cam_types::FrameNo;

impl Store {
    /// Takes out the row of a frame that the device is done with. Its readout is a spare one again.
    pub fn retire(&mut self, frame: FrameNo)
        requires { IsTrue (is_retire_ready self.old.rows frame.0) }
        ensures { self.new ≡ with_rows (without frame.0 self.old.rows) self.old }
    {
        let (place, _row) = find_row(&self.table, frame);
        let readout = match self.slots.remove(place) {
            Slot::Spare(scratch) => scratch.into_readout(),
            Slot::Home(home) => home.into_readout(),
            Slot::Away => unreachable!(),
        };
        self.spares.push_reserved(readout);
        let _ = self.table.retire(frame);
    }
}
