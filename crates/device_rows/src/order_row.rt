//! Which streams a frame holds back.
ghost use Rattle.std.specs.Prelude.{◌≡◌};
ghost use Rattle.device_rows.specs.Order.{holds_back, is_held_for};

use cam_types::{Four, RowView, StreamIx, TargetView};

fn is_held_for(stream: StreamIx, target: Option<TargetView>) -> bool
    ensures { result ≡ is_held_for stream.0 target }
{
    match target {
        Some(target) => {
            target.stream.0 == stream.0 && (!target.state.is_returned() && !target.announced)
        }
        None => false,
    }
}

/// Whether the frame holds back the buffers of later frames for the stream: it has a target of the stream whose buffer
/// may still come back filled.
pub fn holds_back(stream: StreamIx, row: RowView) -> bool
    ensures { result ≡ holds_back stream.0 row }
{
    let Four { a, b, c, d } = row.targets;
    !row.request_error
        && (is_held_for(stream, a)
            || (is_held_for(stream, b) || (is_held_for(stream, c) || is_held_for(stream, d))))
}
