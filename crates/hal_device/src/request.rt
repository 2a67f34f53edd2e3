//! What is tested of a request, and the row that it becomes.
ghost use Rattle.std.specs.Prelude.{◌≡◌, ◌==◌, find, not, nat_lt, option_copied};
ghost use Rattle.std.specs.List.{list_any};
ghost use Rattle.hal_device_model.specs.Calls.{are_bad_settings, are_bad_targets, fresh_row, names_twice, placed, placed_at, settings_of, is_again};

use cam_types::{
    BufferId, Four, FrameNo, RequestId, RowView, SensorPlace, Settings, StreamIx, TargetState,
    TargetView,
};
use hal_model::HalTarget;
use metadata::range_fault;

/// The settings of the request; without any those of the one before.
pub(crate) fn settings_of(settings: Option<Settings>, last: Option<Settings>) -> Option<Settings>
    ensures { result ≡ settings_of settings last }
{
    match settings {
        Some(settings) => Some(settings),
        None => last,
    }
}

/// Whether there are no settings, or one is out of its range.
pub(crate) fn are_bad_settings(settings: Option<Settings>) -> bool
    ensures { result ≡ are_bad_settings settings }
{
    match settings {
        Some(settings) => range_fault(settings).is_some(),
        None => true,
    }
}

/// Whether there is no target, one is of a stream that isn't configured, or a stream or buffer is named twice.
pub(crate) fn are_bad_targets(streams: u32, targets: &[HalTarget]) -> bool
    ensures { result ≡ are_bad_targets streams targets.now }
{
    targets.is_empty() || (is_one_unknown(streams, targets) || names_twice(targets))
}

/// Whether a target is of a stream that isn't configured.
fn is_one_unknown(streams: u32, targets: &[HalTarget]) -> bool
    ensures { result ≡ list_any (λ t. not (nat_lt t.stream streams)) targets.now }
{
    targets.iter().any(|target| !(target.stream < streams))
}

/// Whether a stream or a buffer is named twice.
fn names_twice(targets: &[HalTarget]) -> bool
    ensures { result ≡ names_twice targets.now }
{
    match targets {
        [target, others @ ..] => is_among(target, others) || names_twice(others),
        [] => false,
    }
}

/// Whether one of the others is of the same stream, or has the same buffer.
fn is_among(target: &HalTarget, others: &[HalTarget]) -> bool
    ensures { result ≡ list_any (is_again target.now) others.now }
{
    others.iter().any(|other| is_again(target, other))
}

/// Whether the other target is of the same stream, or has the same buffer.
fn is_again(target: &HalTarget, other: &HalTarget) -> bool
    ensures { result ≡ is_again target.now other.now }
{
    other.stream == target.stream || other.buffer == target.buffer
}

/// What a request says of a stream, if it does.
fn target_at(stream: u32, targets: &[HalTarget]) -> Option<&HalTarget>
    ensures { option_copied result ≡ find (λ t. t.stream == stream) targets.now }
{
    targets.iter().find(|target| target.stream == stream)
}

/// The target for a stream, if there is one.
fn placed_at(stream: u8, targets: &[HalTarget]) -> Option<TargetView>
    ensures { result ≡ placed_at stream targets.now }
{
    match target_at(u32::from(stream), targets) {
        Some(target) => Some(TargetView {
            stream: StreamIx(stream),
            buffer: BufferId(target.buffer),
            fence: None,
            announced: false,
            state: TargetState::Waiting,
        }),
        None => None,
    }
}

/// The target for each of the streams 0 to 3.
pub(crate) fn placed(targets: &[HalTarget]) -> Four<TargetView>
    ensures { result ≡ placed targets.now }
{
    Four {
        a: placed_at(0, targets),
        b: placed_at(1, targets),
        c: placed_at(2, targets),
        d: placed_at(3, targets),
    }
}

/// The row of a frame that is sent now.
pub(crate) fn fresh_row(frame: FrameNo, settings: Settings, targets: &[HalTarget]) -> RowView
    ensures { result ≡ fresh_row frame.0 settings targets.now }
{
    RowView {
        frame,
        request: RequestId(frame.0),
        settings,
        targets: placed(targets),
        shutter: None,
        parts: 0,
        request_error: false,
        result_error: false,
        sensor: SensorPlace::NotYet,
        stopped: false,
    }
}
