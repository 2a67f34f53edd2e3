//! The target of a stream in a row.
ghost use Rattle.std.specs.Prelude.{◌≡◌, ◌==◌, option_to_list};
ghost use Rattle.std.specs.List.{find};
ghost use Rattle.device_rows.specs.Rows.{target_at};

use cam_types::{Four, RowView, StreamIx, TargetView};

fn of_stream(stream: StreamIx, target: Option<TargetView>) -> Option<TargetView>
    ensures { result ≡ find (λ t. t.stream.0 == stream.0) (option_to_list target) }
{
    match target {
        Some(target) if target.stream.0 == stream.0 => Some(target),
        _ => None,
    }
}

/// The target of a stream in a row. None exactly where the row has none.
pub fn target_at(row: RowView, stream: StreamIx) -> Option<TargetView>
    ensures { result ≡ target_at stream.0 row }
{
    let Four { a, b, c, d } = row.targets;
    if let Some(target) = of_stream(stream, a) {
        return Some(target);
    }
    if let Some(target) = of_stream(stream, b) {
        return Some(target);
    }
    if let Some(target) = of_stream(stream, c) {
        return Some(target);
    }
    of_stream(stream, d)
}
