//! The time of the next shutter, and the settings that were sent last.
ghost use Rattle.std.specs.Prelude.{◌≡◌, ◌<◌, ◌^◌, ◌+◌, max, option_map};
ghost use Rattle.cam_types.specs.Limits.{frame_time};
ghost use Rattle.state_facts.specs.FrameReadings.{exposure_in, row_at, time_after};
ghost use Rattle.state_facts.specs.States.{last_after};
ghost use Rattle.judge_rows.specs.Views.{row_of};

use crate::{OpenRow, RowTable, find_row};
use cam_types::{FRAME_TIME, FrameNo, Reply, Settings};
use trace_model::Entry;

fn exposure_of(row: Option<OpenRow>) -> u64
    ensures { result ≡ exposure_in (option_map row_of row) }
{
    match row {
        Some(row) => row.settings.exposure,
        None => 0,
    }
}

/// The time that follows a shutter of the frame.
fn time_with(rows: &RowTable, frame: FrameNo, time: u64) -> u64
    requires { time + max frame_time (exposure_in (row_at frame.0 rows.now)) < 2 ^ 64 }
    ensures { result ≡ time + max frame_time (exposure_in (row_at frame.0 rows.now)) }
{
    let exposure = exposure_of(find_row(rows.rows(), frame));
    time + FRAME_TIME.max(exposure)
}

/// The time of the next shutter, after an entry.
pub(crate) fn time_after(entry: &Entry, rows: &RowTable, old: u64) -> u64
    requires { time_after rows.now entry.now old < 2 ^ 64 }
    ensures { result ≡ time_after rows.now entry.now old }
{
    match entry {
        Entry::Shutter { frame, time } => time_with(rows, *frame, *time),
        _ => old,
    }
}

/// The settings that were sent last, after an entry.
pub(crate) fn last_after(
    entry: &Entry,
    settings: Settings,
    old: Option<Settings>,
) -> Option<Settings>
    ensures { result ≡ last_after settings entry.now old }
{
    match entry {
        Entry::Call {
            reply: Reply::Configured(_),
            ..
        } => None,
        Entry::Send { .. } => Some(settings),
        _ => old,
    }
}
