//! Rows that are done with go, and the device ends.
ghost use Rattle.std.specs.Prelude.{◌≡◌, not, IsFalse, IsTrue};
ghost use Rattle.std.specs.List.{list_all};
ghost use Rattle.buffer_pool.specs.Fences.{made};
ghost use Rattle.device_rows.specs.Jobs.{has_job_out};
ghost use Rattle.device_rows.specs.Kept.{have_made_fences};
ghost use Rattle.device_rows.specs.Ready.{is_retire_ready};
ghost use Rattle.device_rows.specs.Rows.{without};
ghost use Rattle.device_core.specs.View.{with_rows};

use crate::device::Device;
use buffer_pool::Fences;
use cam_types::FrameNo;

impl Device {
    /// Takes out the row of a frame that isn't open any more. False exactly where no such row stands or the frame is
    /// still open.
    pub fn retire(&mut self, frame: FrameNo) -> bool
        ensures ready { result ≡ is_retire_ready self.old.rows frame.0 }
        ensures rows { IsTrue result → self.new ≡ with_rows (without frame.0 self.old.rows) self.old }
        ensures unchanged { IsFalse result → self.new ≡ self.old }
    {
        let Some(row) = self.store.view(frame) else {
            return false;
        };
        if row.is_open() {
            return false;
        }
        self.store.retire(frame);
        true
    }

    /// Spends all that it holds. No job is out, and the fences of buffers that wait were made by these.
    pub fn scrap(self, fences: &mut Fences)
        requires home { IsTrue (list_all (λ row. not (has_job_out row)) self.rows) }
        requires made { IsTrue (list_all (have_made_fences (made fences.old)) self.rows) }
        ensures { fences.new ≡ fences.old }
    {
        let Device { store, faults: _ } = self;
        store.scrap(fences);
    }
}
