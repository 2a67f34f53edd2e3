//! Whether an entry is allowed after the entries before it.
ghost use Rattle.std.specs.Prelude.{◌≡◌, ◌↔◌, false, reverse, IsTrue};
ghost use Rattle.trace_check.specs.Drawing.{has_digest};
ghost use Rattle.trace_model.specs.Allowed.{IsAllowed};
ghost use Rattle.trace_model.specs.Legal.{IsLegal};

use crate::filled::{is_filled_due, is_late_due};
use crate::pictures::Fill;
use cam_types::Script;
use judge_rules::answer::is_call_due;
use judge_rules::call_rule::is_send_due;
use judge_rules::rule::{
    is_begin_due, is_dropped_due, is_early_due, is_error_buffer_due, is_error_device_due,
    is_error_request_due, is_error_result_due, is_failed_due, is_partial_due, is_release_due,
    is_shutter_due, is_signal_due,
};
use picture_stages::Canvas;
use trace_model::Entry;

/// Whether the entry, if it is one without a digest, is due.
fn is_due(script: &Script, entries: &[Entry], entry: &Entry) -> bool
    ensures { has_digest entry.now ≡ false → (IsTrue result ↔ IsAllowed script.now (reverse entries.now) entry.now) }
{
    match *entry {
        Entry::Begin { word } => is_begin_due(script, entries, word),
        Entry::Call { index, word, reply } => is_call_due(script, entries, index, word, reply),
        Entry::Send {
            frame,
            request,
            item,
            same,
            targets,
        } => is_send_due(script, entries, frame, request, item, same, targets),
        Entry::Dropped {
            frame,
            request,
            item,
        } => is_dropped_due(script, entries, frame, request, item),
        Entry::Shutter { frame, time } => is_shutter_due(script, entries, frame, time),
        Entry::Partial {
            frame,
            number,
            part,
        } => is_partial_due(script, entries, frame, number, part),
        Entry::Filled { .. } | Entry::Late { .. } => false,
        Entry::Early {
            frame,
            stream,
            buffer,
            fence,
        } => is_early_due(script, entries, frame, stream, buffer, fence),
        Entry::Failed {
            frame,
            stream,
            buffer,
            fence,
        } => is_failed_due(entries, frame, stream, buffer, fence),
        Entry::ErrorRequest { frame } => is_error_request_due(script, entries, frame),
        Entry::ErrorResult { frame } => is_error_result_due(script, entries, frame),
        Entry::ErrorBuffer { frame, stream } => is_error_buffer_due(script, entries, frame, stream),
        Entry::ErrorDevice => is_error_device_due(script, entries),
        Entry::Release { buffer, fence } => is_release_due(entries, buffer, fence),
        Entry::Signal { fence } => is_signal_due(entries, fence),
    }
}

/// Whether the entry is allowed after the entries, of which each is allowed after those before it.
pub fn is_allowed(
    script: &Script,
    entries: &[Entry],
    entry: &Entry,
    canvas: Canvas,
) -> (bool, Canvas)
    requires { IsLegal script.now (reverse entries.now) }
    ensures { IsTrue result.0 ↔ IsAllowed script.now (reverse entries.now) entry.now }
{
    match *entry {
        Entry::Filled {
            frame,
            stream,
            buffer,
            fence,
            digest,
        } => {
            let fill = Fill {
                frame,
                stream,
                buffer,
                fence,
                digest,
            };
            is_filled_due(script, entries, fill, canvas)
        }
        Entry::Late { fence, digest } => is_late_due(script, entries, fence, digest, canvas),
        _ => (is_due(script, entries, entry), canvas),
    }
}
