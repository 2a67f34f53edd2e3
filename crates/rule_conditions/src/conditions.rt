//! The conditions of an entry, in order.
ghost use Rattle.std.specs.Prelude.{◌≡◌};
ghost use Rattle.rule_conditions.specs.Client.{begin_conditions, call_conditions, release_conditions, signal_conditions};
ghost use Rattle.rule_conditions.specs.Conditions.{conditions_of};
ghost use Rattle.rule_conditions.specs.Errors.{buffer_error_conditions, device_error_conditions};
ghost use Rattle.rule_conditions.specs.Errors.{request_error_conditions, result_error_conditions};
ghost use Rattle.rule_conditions.specs.Results.{partial_conditions, shutter_conditions};
ghost use Rattle.rule_conditions.specs.Returns.{early_conditions, failed_conditions, filled_conditions, late_conditions};
ghost use Rattle.rule_conditions.specs.Sends.{drop_conditions, send_conditions};

use crate::condition::Condition;
use trace_model::Entry;

fn of_send() -> &'static [Condition]
    ensures { result.now ≡ send_conditions }
{
    &[
        Condition::SendNextNumber,
        Condition::SendNextItem,
        Condition::SendNothingStops,
        Condition::SendFromPool,
        Condition::SendFenceOfBuffer,
        Condition::SendStreamsOfItem,
        Condition::SendBelowDepth,
        Condition::SendBelowMaxBuffers,
        Condition::SendNothingHoldsBack,
        Condition::SendNotTooFarAhead,
        Condition::SendMark,
    ]
}

fn of_drop() -> &'static [Condition]
    ensures { result.now ≡ drop_conditions }
{
    &[
        Condition::DropSomethingStops,
        Condition::DropNextNumber,
        Condition::DropFirstOfQueue,
    ]
}

fn of_shutter() -> &'static [Condition]
    ensures { result.now ≡ shutter_conditions }
{
    &[
        Condition::ShutterOfSentFrame,
        Condition::ShutterOfFreshFrame,
        Condition::ShutterInOrder,
        Condition::ShutterNothingStops,
        Condition::ShutterWithoutDeviceFault,
        Condition::ShutterTime,
    ]
}

fn of_partial() -> &'static [Condition]
    ensures { result.now ≡ partial_conditions }
{
    &[
        Condition::PartialBehindShutter,
        Condition::PartialNextNumber,
        Condition::PartialOfFrame,
        Condition::PartialWithoutError,
        Condition::PartialWithoutRequestFault,
        Condition::LastPartWithoutResultFault,
        Condition::LastPartInOrder,
    ]
}

fn of_filled() -> &'static [Condition]
    ensures { result.now ≡ filled_conditions }
{
    &[
        Condition::DeliveryAtDevice,
        Condition::DeliveryBehindShutter,
        Condition::DeliveryWithoutFault,
        Condition::DeliveryWithoutError,
        Condition::DeliveryBehindFence,
        Condition::DeliveryInOrder,
        Condition::PictureOfFrame,
    ]
}

fn of_early() -> &'static [Condition]
    ensures { result.now ≡ early_conditions }
{
    &[
        Condition::DeliveryAtDevice,
        Condition::DeliveryBehindShutter,
        Condition::DeliveryWithoutFault,
        Condition::DeliveryWithoutError,
        Condition::DeliveryBehindFence,
        Condition::DeliveryInOrder,
        Condition::EarlyInScript,
        Condition::EarlyNextFence,
    ]
}

fn of_late() -> &'static [Condition]
    ensures { result.now ≡ late_conditions }
{
    &[
        Condition::LateOfEarlyBuffer,
        Condition::LateToldOnce,
        Condition::LatePictureOfFrame,
    ]
}

fn of_failed() -> &'static [Condition]
    ensures { result.now ≡ failed_conditions }
{
    &[
        Condition::FailedAtDevice,
        Condition::FailedBehindError,
        Condition::FailedFence,
    ]
}

fn of_request_error() -> &'static [Condition]
    ensures { result.now ≡ request_error_conditions }
{
    &[
        Condition::RequestErrorOfOpenFrame,
        Condition::RequestErrorOfBareFrame,
        Condition::RequestErrorHasCause,
        Condition::RequestErrorBehindShutter,
    ]
}

fn of_result_error() -> &'static [Condition]
    ensures { result.now ≡ result_error_conditions }
{
    &[
        Condition::ResultErrorBehindShutter,
        Condition::ResultErrorOfOpenMetadata,
        Condition::ResultErrorInOrder,
        Condition::ResultErrorHasCause,
        Condition::ResultErrorBehindSomething,
        Condition::PartErrorOfStoppedRequest,
    ]
}

fn of_buffer_error() -> &'static [Condition]
    ensures { result.now ≡ buffer_error_conditions }
{
    &[
        Condition::BufferErrorOfTarget,
        Condition::BufferErrorBehindShutter,
        Condition::BufferErrorWithoutRequestError,
        Condition::BufferErrorToldOnce,
        Condition::BufferErrorOfMissingBuffer,
        Condition::BufferErrorHasCause,
        Condition::BufferErrorBehindSomething,
        Condition::PartErrorOfStoppedRequest,
    ]
}

fn of_device_error() -> &'static [Condition]
    ensures { result.now ≡ device_error_conditions }
{
    &[
        Condition::DeviceErrorNothingStops,
        Condition::DeviceErrorAtFault,
    ]
}

fn of_release() -> &'static [Condition]
    ensures { result.now ≡ release_conditions }
{
    &[
        Condition::ReleaseAtClient,
        Condition::ReleaseBehindPicture,
        Condition::ReleaseNextFence,
    ]
}

fn of_signal() -> &'static [Condition]
    ensures { result.now ≡ signal_conditions }
{
    &[Condition::SignalBehindRelease, Condition::SignalToldOnce]
}

fn of_begin() -> &'static [Condition]
    ensures { result.now ≡ begin_conditions }
{
    &[
        Condition::BeginOfWaitingCommand,
        Condition::BeginWord,
        Condition::BeginToldOnce,
    ]
}

fn of_call() -> &'static [Condition]
    ensures { result.now ≡ call_conditions }
{
    &[
        Condition::CallNextIndex,
        Condition::CallWord,
        Condition::CallBehindBegin,
        Condition::CallReply,
        Condition::CallNoFrameOpen,
        Condition::CallQueueEmpty,
        Condition::CallAllInPool,
        Condition::CallAwaitedFrames,
    ]
}

/// The conditions of an entry of its kind, in the order of docs/CONTRACT.md.
pub fn conditions_of(entry: &Entry) -> &'static [Condition]
    ensures { result.now ≡ conditions_of entry.now }
{
    match entry {
        Entry::Begin { .. } => of_begin(),
        Entry::Call { .. } => of_call(),
        Entry::Send { .. } => of_send(),
        Entry::Dropped { .. } => of_drop(),
        Entry::Shutter { .. } => of_shutter(),
        Entry::Partial { .. } => of_partial(),
        Entry::Filled { .. } => of_filled(),
        Entry::Failed { .. } => of_failed(),
        Entry::ErrorRequest { .. } => of_request_error(),
        Entry::ErrorResult { .. } => of_result_error(),
        Entry::ErrorBuffer { .. } => of_buffer_error(),
        Entry::ErrorDevice => of_device_error(),
        Entry::Release { .. } => of_release(),
        Entry::Signal { .. } => of_signal(),
        Entry::Early { .. } => of_early(),
        Entry::Late { .. } => of_late(),
    }
}
