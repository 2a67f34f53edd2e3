//! What is noted of a row: parts, errors, a stop.
ghost use Rattle.std.specs.Prelude.{◌≡◌, is_some, IsTrue};
ghost use Rattle.device_rows.specs.Rows.{all_stopped, row_at, with_error, with_part, with_row};
ghost use Rattle.device_core.specs.Steps.{is_lit, is_timely};
ghost use Rattle.device_core.specs.Stored.{with_rows};
ghost use Rattle.device_rows.specs.Marks.{marked};

use crate::store::Store;
use cam_types::{FrameNo, StreamIx};
use device_rows::{ErrorEntry, Mark};

impl Store {
    /// Notes how many partial results of a frame were sent.
    pub fn note_part(&mut self, frame: FrameNo, parts: u8)
        requires { IsTrue (is_some (row_at frame.0 self.old.rows)) }
        ensures { self.new ≡ with_rows (with_row frame.0 (with_part parts) self.old.rows) self.old }
    {
        let _ = self.table.mark(frame, Mark::PartialResult(parts));
    }

    /// Notes that an error of a frame was told; that of a buffer is of a frame that has its shutter.
    pub fn note_error(&mut self, entry: ErrorEntry)
        requires { IsTrue (is_timely self.old.rows entry) }
        ensures { self.new ≡ with_rows (with_error entry self.old.rows) self.old }
    {
        match entry {
            ErrorEntry::Request(frame) => self.note_request(frame),
            ErrorEntry::Result(frame) => self.note_result(frame),
            ErrorEntry::Buffer(frame, stream) => self.announce(frame, stream),
            ErrorEntry::Device => self.stop(),
        }
    }

    fn note_request(&mut self, frame: FrameNo)
        requires { IsTrue (is_some (row_at frame.0 self.old.rows)) }
        ensures { self.new ≡ with_rows (with_row frame.0 (marked Mark.RequestError) self.old.rows) self.old }
    {
        let _ = self.table.mark(frame, Mark::RequestError);
    }

    fn note_result(&mut self, frame: FrameNo)
        requires { IsTrue (is_some (row_at frame.0 self.old.rows)) }
        ensures { self.new ≡ with_rows (with_row frame.0 (marked Mark.ResultError) self.old.rows) self.old }
    {
        let _ = self.table.mark(frame, Mark::ResultError);
    }

    fn announce(&mut self, frame: FrameNo, stream: StreamIx)
        requires { IsTrue (is_lit (row_at frame.0 self.old.rows)) }
        ensures { self.new ≡ with_rows (with_row frame.0 (marked (Mark.Announced stream)) self.old.rows) self.old }
    {
        let _ = self.table.mark(frame, Mark::Announced(stream));
    }

    /// Marks all rows as stopped.
    pub fn stop(&mut self)
        ensures { self.new ≡ with_rows (all_stopped self.old.rows) self.old }
    {
        self.table.mark_all(Mark::Stopped);
    }
}
