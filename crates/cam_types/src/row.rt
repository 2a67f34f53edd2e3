//! An open frame as the device keeps it: its row and targets.
ghost use Rattle.std.specs.Prelude.{◌≡◌};
ghost use Rattle.cam_types.specs.Rows.{are_settled, awaits_metadata, is_open, is_returned, is_settled, is_settled_at};

use crate::four::Four;
use crate::item::Settings;
use crate::limit::PARTIAL_RESULT_COUNT;
use crate::number::{BufferId, FenceNo, FrameNo, RequestId, StreamIx};

/// Where the sensor's work on a frame is.
#[derive(Clone, Copy, PartialEq, Eq)]
pub enum SensorPlace {
    /// The frame has no shutter yet.
    NotYet,
    /// The sensor exposes the frame.
    Out,
    /// The readout is home.
    Home,
    /// The readout is lent to a fill.
    WithFill,
}

/// What became of a target's buffer.
#[derive(Clone, Copy, PartialEq, Eq)]
pub enum TargetState {
    /// At the device, not filled.
    Waiting,
    /// A stage fills it.
    Out,
    /// Filled, not returned.
    Filled,
    /// Returned before it is filled, and a stage fills it.
    ReturnedEarly,
    /// Returned before it was filled, and filled since; its device fence isn't signalled.
    EarlyFilled,
    /// Returned with its picture, which is there.
    ReturnedOk,
    /// Returned in error.
    ReturnedFailed,
}

/// A target of an open frame: its stream, the buffer, the fence that came with it, and how far it is.
#[derive(Clone, Copy)]
pub struct TargetView {
    pub stream: StreamIx,
    pub buffer: BufferId,
    pub fence: Option<FenceNo>,
    /// Its error was announced.
    pub announced: bool,
    pub state: TargetState,
}

/// An open frame.
#[derive(Clone, Copy)]
pub struct RowView {
    pub frame: FrameNo,
    pub request: RequestId,
    pub settings: Settings,
    pub targets: Four<TargetView>,
    /// The time of the shutter, in nanoseconds.
    pub shutter: Option<u64>,
    /// How many partial results were sent, 0 to 3.
    pub parts: u8,
    pub request_error: bool,
    pub result_error: bool,
    pub sensor: SensorPlace,
    /// A flush, a disconnect or a device failure began after it was sent.
    pub stopped: bool,
}

/// The faults of an open frame; `buffers` has the order of the row's targets.
#[derive(Clone, Copy)]
pub struct RowFaults {
    pub request: bool,
    pub result: bool,
    pub buffers: Four<bool>,
    pub device: bool,
}

/// The errors that are due for an open frame.
#[derive(Clone, Copy, Debug, PartialEq, Eq)]
pub enum RowVerdict {
    /// The capture failed whole.
    Request,
    /// Its last metadata, or buffers of it, are missing; `buffers` has the order of the row's targets.
    Parts { result: bool, buffers: Four<bool> },
    /// None is due.
    Nothing,
}

impl TargetState {
    /// Whether the buffer came back: filled, failed or early.
    pub fn is_returned(self) -> bool
        ensures { result ≡ is_returned self }
    {
        matches!(
            self,
            TargetState::ReturnedEarly
                | TargetState::EarlyFilled
                | TargetState::ReturnedOk
                | TargetState::ReturnedFailed
        )
    }

    /// Whether the device is done with the buffer: it came back with its picture, or failed.
    pub fn is_settled(self) -> bool
        ensures { result ≡ is_settled self }
    {
        matches!(self, TargetState::ReturnedOk | TargetState::ReturnedFailed)
    }
}

fn is_settled_at(target: Option<TargetView>) -> bool
    ensures { result ≡ is_settled_at target }
{
    match target {
        Some(target) => target.state.is_settled(),
        None => true,
    }
}

fn are_settled(targets: Four<TargetView>) -> bool
    ensures { result ≡ are_settled targets }
{
    is_settled_at(targets.a)
        && (is_settled_at(targets.b) && (is_settled_at(targets.c) && is_settled_at(targets.d)))
}

impl RowView {
    /// Whether the metadata of the frame hasn't ended.
    pub fn awaits_metadata(self) -> bool
        ensures { result ≡ awaits_metadata self }
    {
        self.parts < PARTIAL_RESULT_COUNT && (!self.result_error && !self.request_error)
    }

    /// Whether the frame is open: its metadata hasn't ended, or the device isn't done with all its targets.
    pub fn is_open(self) -> bool
        ensures { result ≡ is_open self }
    {
        self.awaits_metadata() || !are_settled(self.targets)
    }
}
