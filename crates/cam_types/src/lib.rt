//! The types that every part of the camera speaks of, and the pictures that its frames have.
#![tactic(auto)]

mod equality;
mod four;
mod item;
mod job;
mod limit;
mod list;
mod number;
mod partial_result;
mod pixels;
mod profile;
mod readout;
mod refusal;
mod reply;
mod request;
mod row;
mod script;
mod stream;
mod worked;

pub use equality::{is_same_partial_result, is_same_reply};
pub use four::Four;
pub use item::{Item, ItemList, Settings, Targets};
pub use job::{FillTarget, JobView};
pub use limit::{
    AWAITED_LIMIT, BURST_LIMIT, COMMAND_LIMIT, FAULT_LIMIT, FIRST_SHUTTER, FRAME_DEPTH, FRAME_TIME,
    PARTIAL_RESULT_COUNT, PICK_LIMIT, PROFILE_LIMIT, QUEUE_LIMIT, RAW_BLOCK, RAW_BUFFERS,
    RAW_STREAMS, REPEAT_LIMIT, REPEATING_AHEAD, SCRIPT_BYTES, SENSOR_HEIGHT, SENSOR_VALUES,
    SENSOR_WIDTH, SPARE_BUFFERS, SPEC_LIMIT, STREAM_LIMIT, TARGET_LIMIT, YUV_BLOCK, YUV_BUFFERS,
    YUV_STREAMS,
};
pub use list::{Listing, NoMemory};
pub use number::{BufferId, DeviceFenceNo, FenceNo, FrameNo, RequestId, StreamIx};
pub use partial_result::PartialResult;
pub use pixels::PixelBuf;
pub use profile::Profile;
pub use readout::Readout;
pub use refusal::{
    BAD_FORMAT, BAD_SETTING, BAD_SIZE, CLOSED, DEVICE_FAILED, EMPTY_LIST, INPUT_STREAM, NO_OUTPUT,
    NO_TARGETS, NOT_CONFIGURED, NOT_REPEATING, QUEUE_FULL, REPEATED_STREAM, REPEATING, TOO_MANY,
    TOO_MANY_RAW, TOO_MANY_YUV, UNKNOWN_STREAM,
};
pub use reply::{Made, Reply};
pub use request::{Queued, WaitingItem};
pub use row::{RowFaults, RowVerdict, RowView, SensorPlace, TargetState, TargetView};
pub use script::{Command, CommandList, Fault, FaultList, PickList, Script, Word};
pub use stream::{Format, SpecList, StreamSpec, frame_bytes};
pub use worked::{worked_colours, worked_sensor_values};
