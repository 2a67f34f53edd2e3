//! The first condition that an entry doesn't meet.
ghost use Rattle.std.specs.Prelude.{◌≡◌, true, false, Some, reverse};
ghost use Rattle.rule_conditions.specs.Parts.{is_known, is_return};
ghost use Rattle.rule_conditions.specs.Conditions.{first_failed, holds};
ghost use Rattle.trace_model.specs.Allowed.{IsAllowed};

use crate::client::{begin_holds, call_holds, release_holds, signal_holds};
use crate::errors::{
    buffer_error_holds, device_error_holds, request_error_holds, result_error_holds,
};
use crate::results::{partial_holds, shutter_holds};
use crate::returns::{Return, early_holds, failed_holds, filled_holds, late_holds};
use crate::sends::{Sending, drop_holds, send_holds};
use crate::{Condition, conditions_of};
use cam_types::Script;
use trace_model::Entry;

/// Whether an entry that gives no buffer back meets the condition.
fn plain_holds(condition: Condition, script: &Script, entries: &[Entry], entry: &Entry) -> bool
    ensures { is_return entry.now ≡ false → result ≡ holds script.now (reverse entries.now) entry.now condition }
{
    match *entry {
        Entry::Begin { word } => begin_holds(condition, script, entries, word),
        Entry::Call { index, word, reply } => {
            call_holds(condition, script, entries, index, word, reply)
        }
        Entry::Send {
            frame,
            request,
            item,
            same,
            targets,
        } => {
            let sending = Sending {
                frame,
                request,
                item,
                same,
                targets,
            };
            send_holds(condition, script, entries, sending)
        }
        Entry::Dropped {
            frame,
            request,
            item,
        } => drop_holds(condition, script, entries, frame, request, item),
        Entry::Shutter { frame, time } => shutter_holds(condition, script, entries, frame, time),
        Entry::Partial {
            frame,
            number,
            part,
        } => partial_holds(condition, script, entries, frame, number, part),
        Entry::ErrorRequest { frame } => request_error_holds(condition, script, entries, frame),
        Entry::ErrorResult { frame } => result_error_holds(condition, script, entries, frame),
        Entry::ErrorBuffer { frame, stream } => {
            buffer_error_holds(condition, script, entries, frame, stream)
        }
        Entry::ErrorDevice => device_error_holds(condition, script, entries),
        Entry::Release { buffer, fence } => release_holds(condition, entries, buffer, fence),
        Entry::Signal { fence } => signal_holds(condition, entries, fence),
        Entry::Filled { .. } | Entry::Failed { .. } | Entry::Early { .. } | Entry::Late { .. } =>
            true,
    }
}

/// Whether the entry gives a buffer back, or its picture.
fn is_return(entry: &Entry) -> bool
    ensures { result ≡ is_return entry.now }
{
    matches!(
        entry,
        Entry::Filled { .. } | Entry::Failed { .. } | Entry::Early { .. } | Entry::Late { .. }
    )
}

/// Whether an entry that gives a buffer back, or its picture, meets the condition, if it isn't that of the digest; of
/// that it says false.
fn return_holds(condition: Condition, script: &Script, entries: &[Entry], entry: &Entry) -> bool
    ensures known { is_return entry.now ≡ true → is_known entry.now condition ≡ true →
        result ≡ holds script.now (reverse entries.now) entry.now condition }
    ensures picture { is_return entry.now ≡ true → is_known entry.now condition ≡ false → result ≡ false }
{
    match *entry {
        Entry::Filled {
            frame,
            stream,
            buffer,
            fence,
            ..
        } => {
            let back = Return::new(frame, stream, buffer);
            filled_holds(condition, script, entries, back, fence)
        }
        Entry::Failed {
            frame,
            stream,
            buffer,
            fence,
        } => {
            let back = Return::new(frame, stream, buffer);
            failed_holds(condition, entries, back, fence)
        }
        Entry::Early {
            frame,
            stream,
            buffer,
            fence,
        } => {
            let back = Return::new(frame, stream, buffer);
            early_holds(condition, script, entries, back, fence)
        }
        Entry::Late { fence, .. } => late_holds(condition, entries, fence),
        _ => true,
    }
}

/// Whether the entry meets the condition, if it isn't that of its picture's digest; of that it says false.
fn holds(condition: Condition, script: &Script, entries: &[Entry], entry: &Entry) -> bool
    ensures known { is_known entry.now condition ≡ true →
        result ≡ holds script.now (reverse entries.now) entry.now condition }
    ensures picture { is_known entry.now condition ≡ false → result ≡ false }
{
    if is_return(entry) {
        return_holds(condition, script, entries, entry)
    } else {
        plain_holds(condition, script, entries, entry)
    }
}

/// The first condition, in the order of docs/CONTRACT.md, that an entry which isn't allowed doesn't meet. No picture is
/// drawn, and no memory taken: that of the digest is the last, and fails where all others hold.
pub fn first_failed(script: &Script, entries: &[Entry], entry: &Entry) -> Condition
    requires { ¬ IsAllowed script.now (reverse entries.now) entry.now }
    ensures { first_failed script.now (reverse entries.now) entry.now ≡ Some result }
{
    let conditions = conditions_of(entry);
    for condition in conditions {
        if !holds(*condition, script, entries, entry) {
            return *condition;
        }
    }
    // never: what meets all of them is allowed
    conditions[0]
}
