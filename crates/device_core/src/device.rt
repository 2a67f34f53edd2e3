//! The device, and the calls that take in what comes to it.
ghost use Rattle.std.specs.Prelude.{◌≡◌, ◌<◌, ◌≤◌, ◌↔◌, [], ◌∷◌, ◌++◌, None, Some, IfErr, IfOk, IfSome, IsErr, IsTrue, OnErr, OnOk, is_ok, length, map, option_to_list, slice_get};
ghost use Rattle.std.specs.List.{list_all};
ghost use Rattle.cam_types.specs.Four.{four_list};
ghost use Rattle.cam_types.specs.Metadata.{range_fault};
ghost use Rattle.cam_types.specs.Picture.{is_offered};
ghost use Rattle.device_rows.specs.Jobs.{IsFillJobOut, IsSensorJobOut};
ghost use Rattle.device_rows.specs.Kept.{is_fresh, rise_from};
ghost use Rattle.device_rows.specs.Rows.{all_stopped, fill_ended, row_at, sensor_home, with_row};
ghost use Rattle.device_core.specs.Stored.{AreParked, are_before, is_some_target, no_plan, spec_of, specs_of};
ghost use Rattle.device_core.specs.View.{with_plan, with_rows};

use crate::Store;
use buffer_pool::Parked;
use cam_types::{FaultList, Four, FrameNo, NoMemory, RowView};
use fill_jobs::FilledJob;
use picture_stages::ExposedJob;
use request_checks::{Plan, PlanStream, is_offered};
use std::alloc::Global;
use std::marker::Model;

/// The device: the rows of the open frames with all that it holds for them, and the faults that it shall have. It can't
/// be let go: `scrap` ends it.
pub struct Device {
    pub(crate) store: Store,
    pub(crate) faults: FaultList,
}

impl Model for Device {
    ghost use Rattle.device_core.specs.View.{DeviceView, device_of};

    ghost Value = { DeviceView };

    ghost view = { λ d. device_of d.store d.faults };
}

impl Device {
    /// A device with no stream, with room for so many rows and as many readouts.
    pub fn new(alloc: Global, rows: u32, faults: FaultList) -> Result<Device, NoMemory>
        requires { (0 < rows) × (rows ≤ 16) }
        ensures { IfOk result
            (λ device. device ≡ record { plan = no_plan; faults = faults; capacity = rows; rows = [] }) }
    {
        let store = Store::new(alloc, rows)?;
        Ok(Device { store, faults })
    }

    /// Takes the streams of a configuration. No row stands. Where a stream's format or size isn't offered the plan comes
    /// back, and nothing is changed.
    pub fn configure(&mut self, plan: Plan) -> Result<(), Plan>
        requires empty { self.old.rows ≡ [] }
        ensures offered { is_ok result ≡ list_all is_offered (specs_of plan) }
        ensures taken { OnOk result (self.new ≡ with_plan plan self.old) }
        ensures refused { IfErr result (λ back. back ≡ plan) }
        ensures unchanged { OnErr result (self.new ≡ self.old) }
    {
        if !are_offered(plan) {
            return Err(plan);
        }
        self.store.configure(plan);
        Ok(())
    }

    /// How many rows stand.
    pub fn len(&self) -> u32
        ensures { result ≡ length self.now.rows }
    {
        self.store.len()
    }

    /// The row of a frame. None exactly where no such row stands.
    pub fn view(&self, frame: FrameNo) -> Option<RowView>
        ensures { result ≡ row_at frame.0 self.now.rows }
    {
        self.store.view(frame)
    }

    /// The row at a place, from 0 on in order of frames. None exactly where so many rows don't stand.
    pub fn at(&self, place: u32) -> Option<RowView>
        ensures { result ≡ slice_get self.now.rows place }
    {
        self.store.at(place)
    }

    /// Takes a request's row, as just sent, with the buffers of its targets; hands these back exactly where as many
    /// rows stand as may.
    pub fn process_request(
        &mut self,
        row: RowView,
        parked: Four<Parked>,
    ) -> Result<(), Four<Parked>>
        requires later { IsTrue (are_before row.frame.0 self.old.rows) }
        requires fresh { IsTrue (is_fresh row) }
        requires range { range_fault row.settings ≡ None }
        requires streams { IsTrue (rise_from 0 (length (specs_of self.old.plan)) (four_list row.targets)) }
        requires some { IsTrue (is_some_target (four_list row.targets)) }
        requires parked { AreParked (specs_of self.old.plan) row.targets parked }
        ensures full { IsErr result ↔ (length self.old.rows ≡ self.old.capacity) }
        ensures ok { OnOk result (self.new ≡ with_rows (self.old.rows ++ row ∷ []) self.old) }
        ensures handed_back { IfErr result (λ back. back ≡ parked) }
        ensures err { OnErr result (self.new ≡ self.old) }
    {
        self.store.admit(row, parked)
    }

    /// Takes the readout back from the sensor, whose job is out.
    pub fn sensor_done(&mut self, job: ExposedJob)
        requires { IsSensorJobOut self.old.rows job }
        ensures { self.new ≡ with_rows (with_row job.frame.0 sensor_home self.old.rows) self.old }
    {
        self.store.take_exposed(job);
    }

    /// Takes the buffer and the readout back from a stage, whose job is out.
    pub fn fill_done(&mut self, job: FilledJob)
        requires { IsFillJobOut (specs_of self.old.plan) self.old.rows job }
        ensures { IfSome job.fill
            (λ target. self.new ≡ with_rows (with_row job.frame.0 (fill_ended target.stream) self.old.rows) self.old) }
    {
        self.store.end_fill(job);
    }

    /// Marks all rows as stopped: a flush, a disconnect or a device failure began.
    pub fn begin_stop(&mut self)
        ensures { self.new ≡ with_rows (all_stopped self.old.rows) self.old }
    {
        self.store.stop();
    }

    /// Ends a flush: no row stands, and nothing changes.
    pub fn end_stop(&mut self)
        requires { self.old.rows ≡ [] }
        ensures { self.new ≡ self.old }
    {
        let _ = self.store.len();
    }
}

/// Whether the format and size of each stream are offered.
fn are_offered(plan: Plan) -> bool
    ensures { result ≡ list_all is_offered (specs_of plan) }
{
    let streams = plan.streams;
    is_offered_at(streams.a)
        && (is_offered_at(streams.b) && (is_offered_at(streams.c) && is_offered_at(streams.d)))
}

fn is_offered_at(stream: Option<PlanStream>) -> bool
    ensures { result ≡ list_all is_offered (map spec_of (option_to_list stream)) }
{
    match stream {
        Some(stream) => is_offered(stream.spec),
        None => true,
    }
}
