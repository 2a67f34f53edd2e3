//! Which of the errors that are due is told next.
ghost use Rattle.std.specs.Prelude.{◌≡◌, ◌↔◌, IfSome, IsNone};
ghost use Rattle.std.specs.Option.{option_map};
ghost use Rattle.cam_types.specs.declared.number.FrameNo.{FrameNo as AFrame};
ghost use Rattle.cam_types.specs.declared.number.StreamIx.{StreamIx as AStream};
ghost use Rattle.device_rows.specs.Next.{error_frame, IsLeastNamed, IsNothingDue, least, lesser_of, lost_buffer, missing_at, missing_streams, next_due};

use crate::entry::ErrorEntry;
use cam_types::{Four, FrameNo, RowVerdict, RowView, StreamIx, TargetView};

/// The next error of those that the verdict on the row names: of the request; of the metadata, where `may_end` says
/// that its turn has come; of the buffer of the least stream. None exactly where none of these may be told. It is of
/// the row's frame, and so never the device's own.
pub fn next_error(row: RowView, verdict: RowVerdict, may_end: bool) -> Option<ErrorEntry>
    ensures value { result ≡ next_due row verdict may_end }
    ensures none { IsNone result ↔ IsNothingDue row.targets verdict may_end }
    ensures least { (frame : AFrame) (stream : AStream) → result ≡ Some (ErrorEntry.Buffer frame stream) →
        IsLeastNamed stream.0 row.targets verdict }
    ensures own { IfSome result (λ entry. error_frame entry ≡ Some row.frame) }
{
    match verdict {
        RowVerdict::Request => Some(ErrorEntry::Request(row.frame)),
        RowVerdict::Parts { result: true, .. } if may_end => Some(ErrorEntry::Result(row.frame)),
        RowVerdict::Parts { buffers, .. } => next_buffer(row.frame, buffers, row.targets),
        RowVerdict::Nothing => None,
    }
}

/// The error of the least stream whose buffer is missing.
fn next_buffer(frame: FrameNo, missing: Four<bool>, targets: Four<TargetView>) -> Option<ErrorEntry>
    ensures { result ≡ option_map (lost_buffer frame) (least (missing_streams missing targets)) }
{
    let stream = least_missing(missing, targets)?;
    Some(ErrorEntry::Buffer(frame, StreamIx(stream)))
}

fn least_missing(missing: Four<bool>, targets: Four<TargetView>) -> Option<u8>
    ensures { result ≡ least (missing_streams missing targets) }
{
    let a = missing_at(missing.a, targets.a);
    let b = missing_at(missing.b, targets.b);
    let c = missing_at(missing.c, targets.c);
    let d = missing_at(missing.d, targets.d);
    lesser_of(a, lesser_of(b, lesser_of(c, d)))
}

fn missing_at(missing: Option<bool>, target: Option<TargetView>) -> Option<u8>
    ensures { result ≡ missing_at missing target }
{
    match (missing, target) {
        (Some(true), Some(target)) => Some(target.stream.0),
        _ => None,
    }
}

fn lesser_of(first: Option<u8>, others: Option<u8>) -> Option<u8>
    ensures { result ≡ lesser_of first others }
{
    match (first, others) {
        (Some(s), Some(t)) => Some(s.min(t)),
        (Some(s), None) => Some(s),
        (None, others) => others,
    }
}
