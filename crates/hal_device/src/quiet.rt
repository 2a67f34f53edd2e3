//! The device with no job out: the sensor and the stages do their work within the call that asks for it.
ghost use Rattle.std.specs.Prelude.{◌≡◌, ◌==◌, false, ◌<◌, ◌≤◌, [], ◌∷◌, ◌++◌, None, IfOk, IfSome, IsTrue, is_some, length, slice_get, if◌then◌else◌};
ghost use Rattle.std.specs.List.{list_all};
ghost use Rattle.std.specs.Option.{option_map};
ghost use Rattle.cam_types.specs.Four.{four_list};
ghost use Rattle.cam_types.specs.Metadata.{range_fault};
ghost use Rattle.cam_types.specs.Picture.{is_offered};
ghost use Rattle.device_core.specs.View.{with_plan, with_rows};
ghost use Rattle.device_rows.specs.Kept.{is_fresh, rise_from};
ghost use Rattle.device_rows.specs.Ready.{is_delivery_ready, is_failed_return_ready, is_fill_ready, next_error, next_part, shutter_row};
ghost use Rattle.device_rows.specs.Rows.{all_stopped};
ghost use Rattle.device_core.specs.Steps.{ShowsAt};
ghost use Rattle.device_core.specs.Stored.{AreParked, are_before, is_some_target, no_plan, specs_of};
ghost use Rattle.buffer_pool.specs.Fences.{is_signalled, no_fences};
ghost use Rattle.hal_device.specs.Kept.{IsBlockAt, rests};
ghost use Rattle.hal_device.specs.Ready.{is_of};
ghost use Rattle.hal_device_model.specs.Calls.{delivered_rows, error_rows, exposed_rows, failed_rows, filled_rows, sent_rows, settled};

use buffer_pool::{Fences, Parked};
use cam_types::{
    BufferId, FaultList, Four, FrameNo, NoMemory, PartialResult, PixelBuf, RowView, StreamIx,
};
use device_core::Device;
use device_rows::ErrorEntry;
use request_checks::Plan;
use std::alloc::Global;
use std::marker::Model;

/// A device none of whose jobs is out, and none of whose buffers waits for a fence of the device's own. It can't be
/// let go: `scrap` ends it.
pub(crate) struct QuietDevice {
    device: Device,
    fences: Fences,
}

impl Model for QuietDevice {
    ghost use Rattle.std.specs.Prelude.{◌≡◌, true};
    ghost use Rattle.std.specs.List.{list_all};
    ghost use Rattle.device_core.specs.View.{DeviceView};
    ghost use Rattle.buffer_pool.specs.Fences.{no_fences};
    ghost use Rattle.hal_device.specs.Kept.{rests};

    ghost Value = { DeviceView };

    ghost view = { λ q. q.device };

    ghost invariant = { λ q. (q.fences ≡ no_fences 0) × (list_all rests q.device.rows ≡ true) };
}

impl QuietDevice {
    /// A device with no stream, with room for so many rows.
    pub fn new(alloc: Global, rows: u32, faults: FaultList) -> Result<QuietDevice, NoMemory>
        requires { (0 < rows) × (rows ≤ 16) }
        ensures { IfOk result
            (λ device. device ≡ record { plan = no_plan; faults = faults; capacity = rows; rows = [] }) }
    {
        let device = Device::new(alloc, rows, faults)?;
        Ok(QuietDevice {
            device,
            fences: Fences::new(alloc),
        })
    }

    /// How many rows stand.
    pub fn len(&self) -> u32
        ensures { result ≡ length self.now.rows }
    {
        self.device.len()
    }

    /// The row at a place, from 0 on in order of frames.
    pub fn at(&self, place: u32) -> Option<RowView>
        ensures { result ≡ slice_get self.now.rows place }
    {
        self.device.at(place)
    }

    /// Whether the frame's exposure is next.
    pub fn is_next(&self, frame: FrameNo) -> bool
        ensures { result ≡ is_of frame.0 (shutter_row self.now.faults self.now.rows) }
    {
        match self.device.shutter_due() {
            Some(row) => row.frame == frame,
            None => false,
        }
    }

    /// Whether a partial result of the frame is ready.
    pub fn has_part(&self, frame: FrameNo) -> bool
        ensures { result ≡ is_some (next_part self.now.faults self.now.rows frame.0) }
    {
        self.device.part_due(frame).is_some()
    }

    /// Whether an error is due at the frame.
    pub fn has_error(&self, frame: FrameNo) -> bool
        ensures { result ≡ is_some (next_error self.now.faults self.now.rows frame.0) }
    {
        self.device.error_due(frame).is_some()
    }

    /// Whether the picture of a target may be drawn.
    pub fn may_fill(&self, frame: FrameNo, stream: StreamIx) -> bool
        ensures { result ≡
            is_fill_ready self.now.faults (λ f. is_signalled f (no_fences 0)) self.now.rows frame.0 stream.0 }
    {
        self.device.may_take_fill(frame, stream, &self.fences)
    }

    /// Whether the filled buffer of a target may come back.
    pub fn may_deliver(&self, frame: FrameNo, stream: StreamIx) -> bool
        ensures { result ≡ is_delivery_ready self.now.faults self.now.rows frame.0 stream.0 }
    {
        self.device.may_deliver(frame, stream)
    }

    /// Whether the failed buffer of a target may come back.
    pub fn may_return_failed(&self, frame: FrameNo, stream: StreamIx) -> bool
        ensures { result ≡ is_failed_return_ready self.now.rows frame.0 stream.0 }
    {
        self.device.may_return_failed(frame, stream)
    }

    /// Takes the streams of a configuration. No row stands.
    pub fn configure(&mut self, plan: Plan)
        requires empty { self.old.rows ≡ [] }
        requires offered { IsTrue (list_all is_offered (specs_of plan)) }
        ensures { self.new ≡ with_plan plan self.old }
    {
        match self.device.configure(plan) {
            Ok(()) => {}
            Err(_) => unreachable!(),
        }
    }

    /// Takes a request's row with the buffers of its targets, for which there is room.
    pub fn request(&mut self, row: RowView, parked: Four<Parked>)
        requires room { (length self.old.rows == self.old.capacity) ≡ false }
        requires later { IsTrue (are_before row.frame.0 self.old.rows) }
        requires fresh { IsTrue (is_fresh row) }
        requires rests { IsTrue (rests row) }
        requires range { range_fault row.settings ≡ None }
        requires streams { IsTrue (rise_from 0 (length (specs_of self.old.plan)) (four_list row.targets)) }
        requires some { IsTrue (is_some_target (four_list row.targets)) }
        requires parked { AreParked (specs_of self.old.plan) row.targets parked }
        ensures { self.new ≡ with_rows (self.old.rows ++ row ∷ []) self.old }
    {
        match self.device.process_request(row, parked) {
            Ok(()) => {}
            Err(_) => unreachable!(),
        }
    }

    /// Begins the next exposure at this time, and exposes the frame.
    pub fn expose(&mut self, time: u64) -> Option<FrameNo>
        ensures frame { result ≡ option_map (λ row. row.frame) (shutter_row self.old.faults self.old.rows) }
        ensures rows { self.new ≡
            with_rows (exposed_rows time (shutter_row self.old.faults self.old.rows) self.old.rows) self.old }
    {
        let row = self.device.shutter_due()?;
        let job = self.device.shutter(time)?;
        self.device.sensor_done(job.expose());
        Some(row.frame)
    }

    /// Gives the next partial result of a frame.
    pub fn part(&mut self, frame: FrameNo) -> Option<(u8, PartialResult)>
        ensures part { result ≡ next_part self.old.faults self.old.rows frame.0 }
        ensures rows { self.new ≡ with_rows
            (sent_rows frame.0 (next_part self.old.faults self.old.rows frame.0) self.old.rows) self.old }
    {
        let sent = self.device.partial(frame)?;
        self.retire(frame);
        Some(sent)
    }

    /// Fills the buffer of a target with its picture.
    pub fn fill(&mut self, frame: FrameNo, stream: StreamIx) -> bool
        ensures ready { result ≡
            is_fill_ready self.old.faults (λ f. is_signalled f (no_fences 0)) self.old.rows frame.0 stream.0 }
        ensures rows { self.new ≡
            with_rows (if result then filled_rows frame.0 stream self.old.rows else self.old.rows) self.old }
    {
        match self.device.take_fill(frame, stream, &mut self.fences) {
            Some(job) => {
                self.device.fill_done(job.fill());
                true
            }
            None => false,
        }
    }

    /// Gives the filled buffer of a target with its picture's digest.
    pub fn deliver(&mut self, frame: FrameNo, stream: StreamIx) -> Option<(PixelBuf, [u8; 32])>
        ensures ready { is_some result ≡ is_delivery_ready self.old.faults self.old.rows frame.0 stream.0 }
        ensures picture { IfSome result
            (λ done. ShowsAt (specs_of self.old.plan) frame.0 stream.0 self.old.rows done.0 done.1) }
        ensures rows { self.new ≡ with_rows
            (if is_some result then delivered_rows frame.0 stream self.old.rows else self.old.rows) self.old }
    {
        let done = self.device.deliver(frame, stream)?;
        self.retire(frame);
        Some(done)
    }

    /// Tells the error that is due at a frame.
    pub fn error(&mut self, frame: FrameNo) -> Option<ErrorEntry>
        ensures error { result ≡ next_error self.old.faults self.old.rows frame.0 }
        ensures rows { self.new ≡ with_rows
            (error_rows frame.0 (next_error self.old.faults self.old.rows frame.0) self.old.rows) self.old }
    {
        let error = self.device.fail_next(frame)?;
        self.retire(frame);
        Some(error)
    }

    /// Gives the number of a failed buffer, and its block.
    pub fn return_failed(&mut self, frame: FrameNo, stream: StreamIx) -> Option<(BufferId, Vec<u8>)>
        ensures ready { is_some result ≡ is_failed_return_ready self.old.rows frame.0 stream.0 }
        ensures buffer { IfSome result
            (λ back. IsBlockAt (specs_of self.old.plan) frame.0 stream.0 self.old.rows back.0 (length back.1.items)) }
        ensures rows { self.new ≡ with_rows
            (if is_some result then failed_rows frame.0 stream self.old.rows else self.old.rows) self.old }
    {
        let parked = self.device.return_failed(frame, stream, &mut self.fences)?;
        let buffer = parked.pixels.id();
        let block = parked.into_block(&mut self.fences);
        self.retire(frame);
        Some((buffer, block))
    }

    /// Marks all rows as stopped.
    pub fn stop(&mut self)
        ensures { self.new ≡ with_rows (all_stopped self.old.rows) self.old }
    {
        self.device.begin_stop();
    }

    /// Spends all that it holds.
    pub fn scrap(self) {
        let QuietDevice { device, mut fences } = self;
        device.scrap(&mut fences);
    }

    /// Lets the row of a frame go that isn't open any more.
    fn retire(&mut self, frame: FrameNo)
        ensures { self.new ≡ with_rows (settled frame.0 self.old.rows) self.old }
    {
        let _ = self.device.retire(frame);
    }
}
