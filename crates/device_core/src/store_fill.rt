//! A stage takes a buffer with the readout, and gives both back.
ghost use Rattle.std.specs.Prelude.{◌≡◌, ◌<◌, None, Some, true, IfSome, IsTrue};
ghost use Rattle.cam_types.specs.Metadata.{range_fault};
ghost use Rattle.cam_types.specs.Picture.{is_offered};
ghost use Rattle.buffer_pool.specs.Fences.{is_signalled, made};
ghost use Rattle.device_rows.specs.Jobs.{fill_job, IsFillJobOut, sensor_job};
ghost use Rattle.device_rows.specs.Ready.{target_passes};
ghost use Rattle.device_rows.specs.Rows.{fill_begun, fill_ended, filled_from, row_at, with_row};
ghost use Rattle.device_core.specs.Held.{as_exposed};
ghost use Rattle.device_core.specs.Steps.{fill_job_for, is_fillable, is_open_to, waiter_kept};
ghost use Rattle.device_core.specs.Stored.{specs_of, with_rows};

use crate::buffers::{FilledBuf, Held, WaitingBuf};
use crate::place::{find_target, swap_slot};
use crate::readouts::{HomeReadout, Slot};
use crate::store::Store;
use buffer_pool::{Fences, Parked, Waiter};
use cam_types::{FillTarget, FrameNo, RowView, SensorPlace, StreamIx, TargetState, TargetView};
use device_rows::Mark;
use fill_jobs::{FillJob, FilledJob};

impl Store {
    /// Gives a stage the job of filling a target's buffer, which waits, with the readout, which is home. Its acquire
    /// fence is one of these and signalled, or there is none; the waiter is redeemed.
    pub fn begin_fill(&mut self, frame: FrameNo, stream: StreamIx, fences: &mut Fences) -> FillJob
        requires fillable { IsTrue (target_passes is_fillable stream.0 (row_at frame.0 self.old.rows)) }
        requires passed { IsTrue (target_passes (is_open_to fences.old) stream.0 (row_at frame.0 self.old.rows)) }
        ensures job { fill_job_for (specs_of self.old.plan) stream.0 (row_at frame.0 self.old.rows) ≡ Some result }
        ensures rows { self.new ≡ with_rows (with_row frame.0 (fill_begun stream) self.old.rows) self.old }
        ensures fences { fences.new ≡ fences.old }
    {
        let (place, row, target) = find_target(&self.table, frame, stream);
        let home = match swap_slot(&mut self.slots, place, Slot::Away) {
            Slot::Home(home) => home,
            Slot::Spare(_) => unreachable!(),
            Slot::Away => unreachable!(),
        };
        let waiting = match self.table.take_target(frame, stream) {
            Some(Held::Waiting(waiting)) => waiting,
            Some(Held::Filled(_other)) => unreachable!(),
            None => unreachable!(),
        };
        let _ = self
            .table
            .mark(frame, Mark::Target(stream, TargetState::Out));
        let _ = self.table.mark(frame, Mark::Sensor(SensorPlace::WithFill));
        make_job(row, target, home, waiting, fences)
    }

    /// Takes the buffer and the readout back from a stage, whose job is out.
    pub fn end_fill(&mut self, job: FilledJob)
        requires { IsFillJobOut (specs_of self.old.plan) self.old.rows job }
        ensures { IfSome job.fill
            (λ target. self.new ≡ with_rows (with_row job.frame.0 (fill_ended target.stream) self.old.rows) self.old) }
    {
        let frame = job.frame();
        let stream = job.target().stream;
        let (place, _row, target) = find_target(&self.table, frame, stream);
        let (home, filled) = take_apart(job);
        let _ = swap_slot(&mut self.slots, place, Slot::Home(home));
        match self.table.put_target(frame, stream, Held::Filled(filled)) {
            None => {}
            Some(_) => unreachable!(),
        }
        let state = filled_from(target.state);
        let _ = self.table.mark(frame, Mark::Target(stream, state));
        let _ = self.table.mark(frame, Mark::Sensor(SensorPlace::Home));
    }
}

/// The job of a stage on a target: the fence is passed.
fn make_job(
    row: RowView,
    target: TargetView,
    home: HomeReadout,
    waiting: WaitingBuf,
    fences: &mut Fences,
) -> FillJob
    requires range { range_fault row.settings ≡ None }
    requires offered { IsTrue (is_offered waiting.spec) }
    requires home { home ≡ sensor_job row }
    requires buffer { waiting.buffer ≡ target.buffer }
    requires made { IfSome waiting.fence (λ f. f < made fences.old) }
    requires passed { IfSome waiting.fence (λ f. IsTrue (is_signalled f fences.old)) }
    ensures job { result ≡ fill_job row target waiting.spec }
    ensures fences { fences.new ≡ fences.old }
{
    let spec = waiting.spec();
    let Parked { pixels, waiter } = waiting.into_parked();
    match redeem(waiter, fences) {
        None => {}
        Some(_) => unreachable!(),
    }
    let to = FillTarget {
        stream: target.stream,
        buffer: target.buffer,
        spec,
    };
    FillJob::new(row.frame, row.settings, to, home.into_readout(), pixels)
}

/// The waiter, if its fence isn't signalled; else it is spent.
pub(crate) fn redeem(waiter: Option<Waiter>, fences: &mut Fences) -> Option<Waiter>
    requires { IfSome waiter (λ f. f < made fences.old) }
    ensures waiter { result ≡ waiter_kept fences.old waiter }
    ensures fences { fences.new ≡ fences.old }
{
    match waiter {
        Some(waiter) => match fences.redeem(waiter) {
            Ok(_) => None,
            Err(waiter) => Some(waiter),
        },
        None => None,
    }
}

/// The readout and the buffer of a job that is done.
fn take_apart(job: FilledJob) -> (HomeReadout, FilledBuf)
    ensures home { result.0 ≡ as_exposed job }
    ensures filled { result.1 ≡ job }
{
    let frame = job.frame();
    let settings = job.settings();
    let target = job.target();
    let (readout, pixels, digest) = job.into_parts();
    (
        HomeReadout::new(frame, settings, readout),
        FilledBuf::new(frame, settings, target, pixels, digest),
    )
}

/// What becomes of a target whose fill ends.
fn filled_from(state: TargetState) -> TargetState
    ensures { result ≡ filled_from state }
{
    match state {
        TargetState::ReturnedEarly => TargetState::EarlyFilled,
        _ => TargetState::Filled,
    }
}
