//! The search that each answer makes: one entry of the past that says what is wanted.
ghost use Rattle.std.specs.Prelude.{◌≡◌, reverse, option_copied, find};
ghost use Rattle.std.specs.List.{list_any};
ghost use Rattle.judge_filters.specs.Wanted.{is_wanted};

use crate::call::{closes, is_begin_or_call};
use crate::next::sets_repeating;
use cam_types::{DeviceFenceNo, FenceNo, FrameNo, RequestId, StreamIx};
use judge_entries::entry::{
    brings, configures, is_early_with, is_error_buffer, is_error_device, is_error_of,
    is_error_request, is_error_result, is_late_with, is_part, is_partial, is_shutter,
    returns_of_frame, returns_target, sends, signals, submits, takes,
};
use trace_model::Entry;

/// What an entry that is looked for says.
#[derive(Clone, Copy)]
pub(crate) enum Wanted {
    BeginOrCall,
    Submission(RequestId),
    Closing,
    Configuration,
    RepeatSetting,
    Taking(RequestId, u32),
    Send(FrameNo),
    Shutter(FrameNo),
    Partial(FrameNo),
    Part(FrameNo, u8),
    Return(FrameNo, StreamIx),
    ReturnOf(FrameNo),
    Bringing(FrameNo, StreamIx),
    EarlyWith(DeviceFenceNo),
    LateWith(DeviceFenceNo),
    Signal(FenceNo),
    ErrorOf(FrameNo),
    ErrorRequest(FrameNo),
    ErrorResult(FrameNo),
    ErrorBuffer(FrameNo, StreamIx),
    ErrorDevice,
}

/// Whether the entry says it.
fn is_wanted(entry: &Entry, wanted: Wanted) -> bool
    ensures { result ≡ is_wanted wanted entry.now }
{
    match wanted {
        Wanted::BeginOrCall => is_begin_or_call(entry),
        Wanted::Submission(request) => submits(entry, request),
        Wanted::Closing => closes(entry),
        Wanted::Configuration => configures(entry),
        Wanted::RepeatSetting => sets_repeating(entry),
        Wanted::Taking(request, place) => takes(entry, request, place),
        Wanted::Send(frame) => sends(entry, frame),
        Wanted::Shutter(frame) => is_shutter(entry, frame),
        Wanted::Partial(frame) => is_partial(entry, frame),
        Wanted::Part(frame, number) => is_part(entry, frame, number),
        Wanted::Return(frame, stream) => returns_target(entry, frame, stream),
        Wanted::ReturnOf(frame) => returns_of_frame(entry, frame),
        Wanted::Bringing(frame, stream) => brings(entry, frame, stream),
        Wanted::EarlyWith(fence) => is_early_with(entry, fence),
        Wanted::LateWith(fence) => is_late_with(entry, fence),
        Wanted::Signal(fence) => signals(entry, fence),
        Wanted::ErrorOf(frame) => is_error_of(entry, frame),
        Wanted::ErrorRequest(frame) => is_error_request(entry, frame),
        Wanted::ErrorResult(frame) => is_error_result(entry, frame),
        Wanted::ErrorBuffer(frame, stream) => is_error_buffer(entry, frame, stream),
        Wanted::ErrorDevice => is_error_device(entry),
    }
}

/// Whether an entry says it.
pub(crate) fn stands(entries: &[Entry], wanted: Wanted) -> bool
    ensures { result ≡ list_any (is_wanted wanted) (reverse entries.now) }
{
    entries.iter().rev().any(|entry| is_wanted(entry, wanted))
}

/// The last entry that says it.
pub(crate) fn last(entries: &[Entry], wanted: Wanted) -> Option<&Entry>
    ensures { option_copied result ≡ find (is_wanted wanted) (reverse entries.now) }
{
    entries.iter().rev().find(|entry| is_wanted(entry, wanted))
}
