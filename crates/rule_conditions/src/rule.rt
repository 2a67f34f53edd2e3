//! The rule of a condition.
ghost use Rattle.std.specs.Prelude.{◌≡◌, List, All};
ghost use Rattle.rule_conditions.specs.Rules.{rule_of};
ghost use Rattle.rule_conditions.specs.Conditions.{conditions_of};
ghost use Rattle.trace_model.specs.Verdict.{rule_of as rule_of_entry};
ghost use Rattle.trace_model.specs.declared.entry.Entry.{Entry as SomeEntry};

use crate::Condition;
use trace_model::RuleName;

/// The rule that the condition is of.
pub fn rule_of(condition: Condition) -> RuleName
    ensures { result ≡ rule_of condition }
{
    match condition {
        Condition::SendNextNumber
        | Condition::SendNextItem
        | Condition::SendNothingStops
        | Condition::SendFromPool
        | Condition::SendFenceOfBuffer
        | Condition::SendStreamsOfItem
        | Condition::SendBelowDepth
        | Condition::SendBelowMaxBuffers
        | Condition::SendNothingHoldsBack
        | Condition::SendNotTooFarAhead
        | Condition::SendMark => RuleName::D9,
        Condition::DropSomethingStops | Condition::DropNextNumber | Condition::DropFirstOfQueue =>
            RuleName::D10,
        Condition::ShutterOfSentFrame
        | Condition::ShutterOfFreshFrame
        | Condition::ShutterInOrder
        | Condition::ShutterNothingStops
        | Condition::ShutterWithoutDeviceFault
        | Condition::ShutterTime => RuleName::D11,
        Condition::PartialBehindShutter
        | Condition::PartialNextNumber
        | Condition::PartialOfFrame
        | Condition::PartialWithoutError
        | Condition::PartialWithoutRequestFault
        | Condition::LastPartWithoutResultFault
        | Condition::LastPartInOrder => RuleName::D12,
        Condition::DeliveryAtDevice
        | Condition::DeliveryBehindShutter
        | Condition::DeliveryWithoutFault
        | Condition::DeliveryWithoutError
        | Condition::DeliveryBehindFence
        | Condition::DeliveryInOrder
        | Condition::PictureOfFrame
        | Condition::EarlyInScript
        | Condition::EarlyNextFence
        | Condition::LateOfEarlyBuffer
        | Condition::LateToldOnce
        | Condition::LatePictureOfFrame => RuleName::D13,
        Condition::RequestErrorOfOpenFrame
        | Condition::RequestErrorOfBareFrame
        | Condition::RequestErrorHasCause
        | Condition::RequestErrorBehindShutter
        | Condition::ResultErrorBehindShutter
        | Condition::ResultErrorOfOpenMetadata
        | Condition::ResultErrorInOrder
        | Condition::ResultErrorHasCause
        | Condition::ResultErrorBehindSomething
        | Condition::BufferErrorOfTarget
        | Condition::BufferErrorBehindShutter
        | Condition::BufferErrorWithoutRequestError
        | Condition::BufferErrorToldOnce
        | Condition::BufferErrorOfMissingBuffer
        | Condition::BufferErrorHasCause
        | Condition::BufferErrorBehindSomething
        | Condition::PartErrorOfStoppedRequest
        | Condition::DeviceErrorNothingStops
        | Condition::DeviceErrorAtFault
        | Condition::FailedAtDevice
        | Condition::FailedBehindError
        | Condition::FailedFence => RuleName::D14,
        Condition::ReleaseAtClient
        | Condition::ReleaseBehindPicture
        | Condition::ReleaseNextFence
        | Condition::SignalBehindRelease
        | Condition::SignalToldOnce
        | Condition::BeginOfWaitingCommand
        | Condition::BeginWord
        | Condition::BeginToldOnce
        | Condition::CallNextIndex
        | Condition::CallWord
        | Condition::CallBehindBegin
        | Condition::CallReply
        | Condition::CallNoFrameOpen
        | Condition::CallQueueEmpty
        | Condition::CallAllInPool
        | Condition::CallAwaitedFrames => RuleName::D15,
    }
}

/// The conditions of an entry are of the rule that a verdict names of it.
pub fn conditions_are_of_the_rule()
    ensures { (e : SomeEntry) → All (λ c. rule_of c ≡ rule_of_entry e) (conditions_of e) }
{}
