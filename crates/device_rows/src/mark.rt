//! One change of a row.
ghost use Rattle.std.specs.Prelude.{◌≡◌};
ghost use Rattle.device_rows.specs.Marks.{as_announced, if_of_stream, in_state, marked, with_target};

use cam_types::{Four, RowView, SensorPlace, StreamIx, TargetState, TargetView};

/// What changes in a row: one field, or one field of one target.
#[derive(Clone, Copy)]
pub enum Mark {
    /// The time of the shutter, in nanoseconds.
    Shutter(u64),
    /// How many partial results were sent.
    PartialResult(u8),
    RequestError,
    ResultError,
    /// The error of the stream's buffer was announced.
    Announced(StreamIx),
    /// What became of the stream's buffer.
    Target(StreamIx, TargetState),
    Sensor(SensorPlace),
    Stopped,
}

/// The row with the mark's field changed.
pub(crate) fn marked(mark: Mark, row: RowView) -> RowView
    ensures { result ≡ marked mark row }
{
    match mark {
        Mark::Shutter(time) => RowView {
            shutter: Some(time),
            ..row
        },
        Mark::PartialResult(parts) => RowView { parts, ..row },
        Mark::RequestError => RowView {
            request_error: true,
            ..row
        },
        Mark::ResultError => RowView {
            result_error: true,
            ..row
        },
        Mark::Announced(stream) => RowView {
            targets: announced(stream, row.targets),
            ..row
        },
        Mark::Target(stream, state) => RowView {
            targets: in_state(stream, state, row.targets),
            ..row
        },
        Mark::Sensor(sensor) => RowView { sensor, ..row },
        Mark::Stopped => RowView {
            stopped: true,
            ..row
        },
    }
}

fn announced_at(stream: StreamIx, target: Option<TargetView>) -> Option<TargetView>
    ensures { result ≡ if_of_stream stream.0 as_announced target }
{
    let mut target = target?;
    if target.stream.0 == stream.0 {
        target.announced = true;
    }
    Some(target)
}

fn announced(stream: StreamIx, targets: Four<TargetView>) -> Four<TargetView>
    ensures { result ≡ with_target stream.0 as_announced targets }
{
    Four {
        a: announced_at(stream, targets.a),
        b: announced_at(stream, targets.b),
        c: announced_at(stream, targets.c),
        d: announced_at(stream, targets.d),
    }
}

fn in_state_at(
    stream: StreamIx,
    state: TargetState,
    target: Option<TargetView>,
) -> Option<TargetView>
    ensures { result ≡ if_of_stream stream.0 (in_state state) target }
{
    let mut target = target?;
    if target.stream.0 == stream.0 {
        target.state = state;
    }
    Some(target)
}

fn in_state(stream: StreamIx, state: TargetState, targets: Four<TargetView>) -> Four<TargetView>
    ensures { result ≡ with_target stream.0 (in_state state) targets }
{
    Four {
        a: in_state_at(stream, state, targets.a),
        b: in_state_at(stream, state, targets.b),
        c: in_state_at(stream, state, targets.c),
        d: in_state_at(stream, state, targets.d),
    }
}
