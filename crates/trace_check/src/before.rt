//! What holds of each open frame before one.
ghost use Rattle.std.specs.Prelude.{◌≡◌, ◌==◌, ◌||◌, nat_lt, not, option_map, option_to_list};
ghost use Rattle.std.specs.List.{list_all};
ghost use Rattle.state_facts.specs.FrameReadings.{each_below, lets_pass_row};
ghost use Rattle.state_facts.specs.Row.{is_ended};
ghost use Rattle.judge_rows.specs.Views.{row_of, rows_of, as_target};

use cam_types::{FrameNo, StreamIx};
use judge_rows::{OpenRow, OpenTarget, is_ended};

fn ended_before(row: &OpenRow, frame: FrameNo) -> bool
    ensures { result ≡ (not (nat_lt row.now.frame.0 frame.0) || is_ended (row_of row.now)) }
{
    row.frame.0 >= frame.0 || is_ended(row)
}

fn all_ended(rows: &[OpenRow], frame: FrameNo) -> bool
    ensures { result ≡ list_all (λ r. not (nat_lt r.frame.0 frame.0) || is_ended (row_of r)) rows.now }
{
    rows.iter().all(|row| ended_before(row, frame))
}

/// Whether the metadata of each earlier frame ended.
pub(crate) fn earlier_ended(rows: &[OpenRow], frame: FrameNo) -> bool
    ensures { result ≡ each_below frame.0 is_ended (rows_of rows.now) }
{
    all_ended(rows, frame)
}

fn target_passes(target: Option<OpenTarget>, stream: StreamIx) -> bool
    ensures { result ≡
        list_all (λ t. not (t.sent.stream.0 == stream.0) || (t.returned || t.announced))
        (option_to_list (option_map as_target target)) }
{
    match target {
        Some(target) => target.sent.stream.0 != stream.0 || (target.returned || target.announced),
        None => true,
    }
}

/// Whether the frame doesn't hold later buffers of the stream back.
fn lets_pass(row: &OpenRow, stream: StreamIx) -> bool
    ensures { result ≡ lets_pass_row stream.0 (row_of row.now) }
{
    let targets = &row.targets;
    row.request_error
        || (target_passes(targets.a, stream)
            && (target_passes(targets.b, stream)
                && (target_passes(targets.c, stream) && target_passes(targets.d, stream))))
}

fn passes_before(row: &OpenRow, frame: FrameNo, stream: StreamIx) -> bool
    ensures { result ≡ (not (nat_lt row.now.frame.0 frame.0) || lets_pass_row stream.0 (row_of row.now)) }
{
    row.frame.0 >= frame.0 || lets_pass(row, stream)
}

fn all_pass(rows: &[OpenRow], frame: FrameNo, stream: StreamIx) -> bool
    ensures { result ≡ list_all (λ r. not (nat_lt r.frame.0 frame.0) || lets_pass_row stream.0 (row_of r)) rows.now }
{
    rows.iter().all(|row| passes_before(row, frame, stream))
}

/// Whether no earlier frame holds buffers of the stream back.
pub(crate) fn earlier_pass(rows: &[OpenRow], frame: FrameNo, stream: StreamIx) -> bool
    ensures { result ≡ each_below frame.0 (lets_pass_row stream.0) (rows_of rows.now) }
{
    all_pass(rows, frame, stream)
}
