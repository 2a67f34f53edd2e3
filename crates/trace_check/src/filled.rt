//! Whether a filled buffer, or the signal of a device fence, is the one that is due: its digest is that of its picture.
ghost use Rattle.std.specs.Prelude.{◌≡◌, ◌↔◌, ℕ, None, reverse, slice_get, IsTrue};
ghost use Rattle.cam_types.specs.Metadata.{range_fault};
ghost use Rattle.cam_types.specs.Picture.{picture};
ghost use Rattle.cam_types.specs.declared.stream.StreamSpec.{StreamSpec as SomeSpec};
ghost use Rattle.trace_model.specs.Allowed.{IsAllowed};
ghost use Rattle.trace_model.specs.Configuration.{streams as streams_of};
ghost use Rattle.trace_model.specs.Frames.{settings_of};
ghost use Rattle.trace_model.specs.Legal.{IsLegal};
ghost use Rattle.trace_model.specs.Picture.{digest_of};

use crate::pictures::{DARK, Fill, is_same_digest};
use cam_types::{DeviceFenceNo, FrameNo, Script, Settings, StreamIx, StreamSpec};
use judge_filters::configuration::streams;
use judge_filters::frame::item_of;
use judge_rules::rule::{is_fill_due, late_due};
use picture_stages::Canvas;
use trace_model::Entry;

/// The stream at the place.
fn stream_at(script: &Script, entries: &[Entry], stream: StreamIx) -> Option<StreamSpec>
    ensures { result ≡ slice_get (streams_of script.now (reverse entries.now)) stream.0 }
{
    streams(script, entries).get(stream.0 as usize).copied()
}

/// Settings in their range that give the frame's pictures.
fn settings_to_draw(script: &Script, entries: &[Entry], frame: FrameNo) -> Settings
    requires { IsLegal script.now (reverse entries.now) }
    ensures range { range_fault result ≡ None }
    ensures picture { (spec : SomeSpec) (n : ℕ) →
        picture spec result n ≡ picture spec (settings_of script.now (reverse entries.now) frame.0) n }
{
    match item_of(script, entries, frame) {
        Some(item) => item.settings,
        None => DARK,
    }
}

/// Whether the digest is that of the frame's picture for the stream.
fn is_its_digest(
    script: &Script,
    entries: &[Entry],
    frame: FrameNo,
    stream: StreamIx,
    digest: [u8; 32],
    canvas: Canvas,
) -> (bool, Canvas)
    requires { IsLegal script.now (reverse entries.now) }
    ensures { IsTrue result.0 ↔ (digest ≡ digest_of script.now (reverse entries.now) frame.0 stream.0) }
{
    match stream_at(script, entries, stream) {
        Some(spec) => {
            let settings = settings_to_draw(script, entries, frame);
            let (drawn, canvas) = canvas.digest(spec, settings, frame);
            (is_same_digest(digest, drawn), canvas)
        }
        None => (false, canvas),
    }
}

/// Whether the buffer is due back with its picture, with this fence and this digest.
pub fn is_filled_due(
    script: &Script,
    entries: &[Entry],
    fill: Fill,
    canvas: Canvas,
) -> (bool, Canvas)
    requires { IsLegal script.now (reverse entries.now) }
    ensures { IsTrue result.0 ↔
        IsAllowed script.now (reverse entries.now)
        (Entry.Filled fill.frame fill.stream fill.buffer fill.fence fill.digest) }
{
    let Fill {
        frame,
        stream,
        buffer,
        fence,
        digest,
    } = fill;
    if is_fill_due(script, entries, frame, stream, buffer, fence) {
        is_its_digest(script, entries, frame, stream, digest, canvas)
    } else {
        (false, canvas)
    }
}

/// Whether the signal of the device fence is due, with this digest.
pub fn is_late_due(
    script: &Script,
    entries: &[Entry],
    fence: DeviceFenceNo,
    digest: [u8; 32],
    canvas: Canvas,
) -> (bool, Canvas)
    requires { IsLegal script.now (reverse entries.now) }
    ensures { IsTrue result.0 ↔ IsAllowed script.now (reverse entries.now) (Entry.Late fence digest) }
{
    match late_due(entries, fence) {
        Some(which) => is_its_digest(script, entries, which.0, which.1, digest, canvas),
        None => (false, canvas),
    }
}
