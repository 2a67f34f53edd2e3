//! The values that C passes and is given, and what they say.
ghost use Rattle.std.specs.Prelude.{◌≡◌};
ghost use Rattle.hal_device_c.specs.Records.{error_record, fault_of, format_of, has_kind, max_buffers_record, most_of, part_record, profile_of, row_record, row_target, settings_of, settings_record, spec_of, target_of};

use cam_types::{Fault, Format, FrameNo, PartialResult, Profile, Settings, StreamIx, StreamSpec};
use device_rows::ErrorEntry;
use hal_device::{ReadyRow, ReadyTarget};
use hal_model::HalTarget;
use request_checks::{Plan, PlanStream};

/// `struct pauvigre_profile`.
#[repr(C)]
#[derive(Clone, Copy)]
pub struct ProfileRecord {
    pub depth: u32,
    pub raw: u32,
    pub yuv: u32,
}

/// `struct pauvigre_fault`.
#[repr(C)]
#[derive(Clone, Copy)]
pub struct FaultRecord {
    pub kind: u32,
    pub frame: u32,
    pub stream: u8,
}

/// `struct pauvigre_stream`.
#[repr(C)]
#[derive(Clone, Copy)]
pub struct StreamRecord {
    pub format: u32,
    pub width: u32,
    pub height: u32,
    pub input: bool,
}

/// `struct pauvigre_max_buffers`.
#[repr(C)]
#[derive(Clone, Copy)]
pub struct MaxBuffersRecord {
    pub of: [u32; 4],
}

/// `struct pauvigre_settings`.
#[repr(C)]
#[derive(Clone, Copy)]
pub struct SettingsRecord {
    pub exposure: u64,
    pub iso: u32,
    pub level: u32,
    pub pattern: u8,
}

/// `struct pauvigre_target`.
#[repr(C)]
#[derive(Clone, Copy)]
pub struct TargetRecord {
    pub stream: u32,
    pub buffer: u32,
}

/// `struct pauvigre_row_target`.
#[repr(C)]
#[derive(Clone, Copy)]
pub struct RowTargetRecord {
    pub buffer: u32,
    pub there: bool,
    pub may_fill: bool,
    pub may_deliver: bool,
    pub may_return_failed: bool,
}

/// `struct pauvigre_row`.
#[repr(C)]
#[derive(Clone, Copy)]
pub struct RowRecord {
    pub frame: u32,
    pub may_expose: bool,
    pub may_send_part: bool,
    pub may_tell_error: bool,
    pub targets: [RowTargetRecord; 4],
}

/// `struct pauvigre_part`.
#[repr(C)]
#[derive(Clone, Copy)]
pub struct PartRecord {
    pub exposure: u64,
    pub timestamp: u64,
    pub number: u32,
    pub level: u32,
    pub iso: u32,
    pub pattern: u8,
}

/// `struct pauvigre_delivered`.
#[repr(C)]
#[derive(Clone, Copy)]
pub struct DeliveredRecord {
    pub buffer: u32,
    pub digest: [u8; 32],
}

/// `struct pauvigre_error`.
#[repr(C)]
#[derive(Clone, Copy)]
pub struct ErrorRecord {
    pub kind: u32,
    pub frame: u32,
    pub stream: u8,
}

pub(crate) fn profile_of(profile: ProfileRecord) -> Profile
    ensures { result ≡ profile_of profile }
{
    Profile {
        depth: profile.depth,
        raw: profile.raw,
        yuv: profile.yuv,
    }
}

/// Whether a fault has a kind.
pub(crate) fn has_kind(fault: &FaultRecord) -> bool
    ensures { result ≡ has_kind fault.now }
{
    0 < fault.kind && fault.kind < 5
}

/// The fault of that kind.
pub(crate) fn fault_of(fault: FaultRecord) -> Fault
    ensures { result ≡ fault_of fault }
{
    let frame = FrameNo(fault.frame);
    match fault.kind {
        1 => Fault::Request(frame),
        2 => Fault::Result(frame),
        3 => Fault::Buffer(frame, StreamIx(fault.stream)),
        _ => Fault::Device(frame),
    }
}

fn format_of(format: u32) -> Format
    ensures { result ≡ format_of format }
{
    match format {
        0x20 => Format::Raw16,
        0x23 => Format::Yuv,
        _ => Format::Other(format),
    }
}

pub(crate) fn spec_of(stream: StreamRecord) -> StreamSpec
    ensures { result ≡ spec_of stream }
{
    StreamSpec {
        input: stream.input,
        format: format_of(stream.format),
        width: stream.width,
        height: stream.height,
    }
}

pub(crate) fn settings_of(settings: SettingsRecord) -> Settings
    ensures { result ≡ settings_of settings }
{
    Settings {
        pattern: settings.pattern,
        level: settings.level,
        exposure: settings.exposure,
        iso: settings.iso,
    }
}

pub(crate) fn target_of(target: TargetRecord) -> HalTarget
    ensures { result ≡ target_of target }
{
    HalTarget {
        stream: target.stream,
        buffer: target.buffer,
        fence: None,
    }
}

pub(crate) fn settings_record(settings: Settings) -> SettingsRecord
    ensures { result ≡ settings_record settings }
{
    SettingsRecord {
        exposure: settings.exposure,
        iso: settings.iso,
        level: settings.level,
        pattern: settings.pattern,
    }
}

fn most_of(stream: Option<PlanStream>) -> u32
    ensures { result ≡ most_of stream }
{
    match stream {
        Some(stream) => stream.max_buffers,
        None => 0,
    }
}

/// How many buffers of each stream may be at the device.
pub(crate) fn max_buffers_record(plan: Plan) -> MaxBuffersRecord
    ensures { result ≡ max_buffers_record plan }
{
    MaxBuffersRecord {
        of: [
            most_of(plan.streams.a),
            most_of(plan.streams.b),
            most_of(plan.streams.c),
            most_of(plan.streams.d),
        ],
    }
}

/// A partial result and its number.
pub(crate) fn part_record(sent: (u8, PartialResult)) -> PartRecord
    ensures { result ≡ part_record sent }
{
    let (number, part) = sent;
    let empty = PartRecord {
        exposure: 0,
        timestamp: 0,
        number: number as u32,
        level: 0,
        iso: 0,
        pattern: 0,
    };
    match part {
        PartialResult::Look { pattern, level } => PartRecord {
            pattern,
            level,
            ..empty
        },
        PartialResult::Light { exposure, iso } => PartRecord {
            exposure,
            iso,
            ..empty
        },
        PartialResult::Time { timestamp } => PartRecord { timestamp, ..empty },
    }
}

pub(crate) fn error_record(error: ErrorEntry) -> ErrorRecord
    ensures { result ≡ error_record error }
{
    match error {
        ErrorEntry::Device => ErrorRecord {
            kind: 1,
            frame: 0,
            stream: 0,
        },
        ErrorEntry::Request(frame) => ErrorRecord {
            kind: 2,
            frame: frame.0,
            stream: 0,
        },
        ErrorEntry::Result(frame) => ErrorRecord {
            kind: 3,
            frame: frame.0,
            stream: 0,
        },
        ErrorEntry::Buffer(frame, stream) => ErrorRecord {
            kind: 4,
            frame: frame.0,
            stream: stream.0,
        },
    }
}

fn row_target(target: Option<ReadyTarget>) -> RowTargetRecord
    ensures { result ≡ row_target target }
{
    match target {
        Some(target) => RowTargetRecord {
            buffer: target.buffer.0,
            there: true,
            may_fill: target.may_fill,
            may_deliver: target.may_deliver,
            may_return_failed: target.may_return_failed,
        },
        None => RowTargetRecord {
            buffer: 0,
            there: false,
            may_fill: false,
            may_deliver: false,
            may_return_failed: false,
        },
    }
}

pub(crate) fn row_record(row: ReadyRow) -> RowRecord
    ensures { result ≡ row_record row }
{
    RowRecord {
        frame: row.frame.0,
        may_expose: row.may_expose,
        may_send_part: row.may_send_part,
        may_tell_error: row.may_tell_error,
        targets: [
            row_target(row.targets.a),
            row_target(row.targets.b),
            row_target(row.targets.c),
            row_target(row.targets.d),
        ],
    }
}
