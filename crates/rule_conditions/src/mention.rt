//! What a condition speaks of.
ghost use Rattle.std.specs.Prelude.{◌≡◌, reverse};
ghost use Rattle.rule_conditions.specs.Mentions.{is_mentioned, mention_of, mentions};

use crate::Condition;
use crate::about::{is_any_shutter, is_begin, is_of_settings, is_stop_line};
use crate::past::{
    fills_stream, gave_to_client, sends_holding, sends_open, sends_unended, sends_unexposed,
};
use crate::shared::{shares_buffer, shares_fence, shares_frame, shares_item};
use judge_entries::entry::{is_call, is_early, is_numbering, is_release, is_submission};
use trace_model::Entry;

/// What a condition speaks of.
#[derive(Clone, Copy)]
pub enum Mention {
    /// The entries of the frame that the faulty entry is of.
    Frame,
    /// These, and what stops: a flush or a disconnect that begins or is answered, a failure of the device.
    FrameAndStops,
    /// These, and the entries that name a buffer of the faulty one.
    FrameAndBuffers,
    /// The entries that name a buffer of the faulty one.
    Buffers,
    /// The call that the item of the faulty entry is of, and what took that item.
    Item,
    /// What gave, released or signalled the fence of the faulty entry.
    Fence,
    /// Sends and drops, which give frame numbers away.
    Numbers,
    /// A flush or a disconnect that begins or is answered, and a failure of the device.
    Stops,
    /// Commands that begin.
    Begins,
    /// Commands that begin or are answered.
    Calls,
    /// Accepted requests.
    Submissions,
    /// Shutters.
    Shutters,
    /// Sends and configurations.
    Settings,
    /// Buffers that came back early.
    EarlyReturns,
    /// Releases.
    Releases,
    /// Sends whose frame is open.
    OpenFrames,
    /// Sends of buffers that are at the device, for a stream of the faulty entry.
    StreamsAtDevice,
    /// Returns of buffers that are at the client still.
    AtClient,
    /// Sends of earlier frames that have neither a shutter nor failed whole.
    EarlierUnexposed,
    /// Sends of earlier frames whose metadata hasn't ended.
    EarlierUnended,
    /// Sends of earlier frames that keep the buffer of the faulty entry back.
    EarlierHolding,
}

/// What a condition speaks of: mostly of the frame of the entry that breaks it.
pub fn mention_of(condition: Condition) -> Mention
    ensures { result ≡ mention_of condition }
{
    match condition {
        Condition::SendNextNumber | Condition::DropNextNumber => Mention::Numbers,
        Condition::SendNextItem | Condition::SendStreamsOfItem | Condition::DropFirstOfQueue =>
            Mention::Item,
        Condition::SendNothingStops
        | Condition::DropSomethingStops
        | Condition::ShutterNothingStops
        | Condition::DeviceErrorNothingStops => Mention::Stops,
        Condition::SendFromPool
        | Condition::SendFenceOfBuffer
        | Condition::ReleaseAtClient
        | Condition::ReleaseBehindPicture => Mention::Buffers,
        Condition::SendBelowDepth | Condition::CallNoFrameOpen => Mention::OpenFrames,
        Condition::SendBelowMaxBuffers => Mention::StreamsAtDevice,
        Condition::SendNothingHoldsBack | Condition::BeginToldOnce | Condition::CallAwaitedFrames =>
            Mention::Begins,
        Condition::SendNotTooFarAhead
        | Condition::BeginOfWaitingCommand
        | Condition::BeginWord
        | Condition::CallNextIndex
        | Condition::CallWord
        | Condition::CallBehindBegin
        | Condition::CallReply => Mention::Calls,
        Condition::SendMark => Mention::Settings,
        Condition::ShutterInOrder => Mention::EarlierUnexposed,
        Condition::ShutterTime | Condition::DeviceErrorAtFault => Mention::Shutters,
        Condition::LastPartInOrder | Condition::ResultErrorInOrder => Mention::EarlierUnended,
        Condition::DeliveryAtDevice
        | Condition::DeliveryBehindFence
        | Condition::FailedAtDevice
        | Condition::FailedFence => Mention::FrameAndBuffers,
        Condition::DeliveryInOrder => Mention::EarlierHolding,
        Condition::EarlyNextFence | Condition::LateOfEarlyBuffer => Mention::EarlyReturns,
        Condition::LateToldOnce | Condition::LatePictureOfFrame | Condition::SignalToldOnce =>
            Mention::Fence,
        Condition::RequestErrorHasCause
        | Condition::ResultErrorHasCause
        | Condition::ResultErrorBehindSomething
        | Condition::BufferErrorHasCause
        | Condition::BufferErrorBehindSomething
        | Condition::PartErrorOfStoppedRequest => Mention::FrameAndStops,
        Condition::ReleaseNextFence | Condition::SignalBehindRelease => Mention::Releases,
        Condition::CallQueueEmpty => Mention::Submissions,
        Condition::CallAllInPool => Mention::AtClient,
        _ => Mention::Frame,
    }
}

/// Whether a condition that the faulty entry breaks speaks of the entry, which stands in the past.
fn is_mentioned(mention: Mention, entries: &[Entry], faulty: &Entry, entry: &Entry) -> bool
    ensures { result ≡ is_mentioned mention (reverse entries.now) faulty.now entry.now }
{
    match mention {
        Mention::Frame => shares_frame(faulty, entry),
        Mention::FrameAndStops => shares_frame(faulty, entry) || is_stop_line(entry),
        Mention::FrameAndBuffers => shares_frame(faulty, entry) || shares_buffer(faulty, entry),
        Mention::Buffers => shares_buffer(faulty, entry),
        Mention::Item => shares_item(faulty, entry),
        Mention::Fence => shares_fence(faulty, entry),
        Mention::Numbers => is_numbering(entry),
        Mention::Stops => is_stop_line(entry),
        Mention::Begins => is_begin(entry),
        Mention::Calls => is_call(entry) || is_begin(entry),
        Mention::Submissions => is_submission(entry),
        Mention::Shutters => is_any_shutter(entry),
        Mention::Settings => is_of_settings(entry),
        Mention::EarlyReturns => is_early(entry),
        Mention::Releases => is_release(entry),
        Mention::OpenFrames => sends_open(entries, entry),
        Mention::StreamsAtDevice => fills_stream(entries, faulty, entry),
        Mention::AtClient => gave_to_client(entries, entry),
        Mention::EarlierUnexposed => sends_unexposed(entries, faulty, entry),
        Mention::EarlierUnended => sends_unended(entries, faulty, entry),
        Mention::EarlierHolding => sends_holding(entries, faulty, entry),
    }
}

/// Whether the condition speaks of the entry, which stands among the entries before the faulty one.
pub fn mentions(condition: Condition, entries: &[Entry], faulty: &Entry, entry: &Entry) -> bool
    ensures { result ≡ mentions condition (reverse entries.now) faulty.now entry.now }
{
    is_mentioned(mention_of(condition), entries, faulty, entry)
}
