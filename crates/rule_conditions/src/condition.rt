//! The conditions of the rules: each is a row, or one reason of a row, of docs/CONTRACT.md, What each entry needs.
/// What an entry has to meet to be allowed after those before it. The first word names the entries that it is a
/// condition of, in the order of docs/CONTRACT.md.
#[derive(Clone, Copy, PartialEq, Eq)]
pub enum Condition {
    // ---- D9: a send
    /// The frame's number is the next.
    SendNextNumber,
    /// The item is the next: the first of the queue, else the one whose turn it is in the repeating list.
    SendNextItem,
    /// Nothing stops.
    SendNothingStops,
    /// Each target takes a buffer of its stream that is in the pool.
    SendFromPool,
    /// Each target has the fence that its buffer has there.
    SendFenceOfBuffer,
    /// The targets are the item's streams, in ascending order.
    SendStreamsOfItem,
    /// Fewer frames are open than the profile's depth.
    SendBelowDepth,
    /// Of each target's stream fewer buffers are at the device than the profile has for its format.
    SendBelowMaxBuffers,
    /// Of an item of the repeating list: no configure or close has begun.
    SendNothingHoldsBack,
    /// Of such an item: fewer were sent since the last call than 64, and as many as an await waits for.
    SendNotTooFarAhead,
    /// The mark is `same` exactly where the frame sent before had equal settings.
    SendMark,

    // ---- D10: a drop
    /// Something stops.
    DropSomethingStops,
    /// The frame's number is the next.
    DropNextNumber,
    /// The item is the first of the queue.
    DropFirstOfQueue,

    // ---- D11: a shutter
    /// The frame was sent.
    ShutterOfSentFrame,
    /// The frame has neither a shutter nor an error.
    ShutterOfFreshFrame,
    /// Every earlier frame has a shutter or failed whole.
    ShutterInOrder,
    /// Nothing stops.
    ShutterNothingStops,
    /// The script has no device fault of the frame.
    ShutterWithoutDeviceFault,
    /// The time is that of the next shutter.
    ShutterTime,

    // ---- D12: a partial result
    /// The frame has its shutter.
    PartialBehindShutter,
    /// The number is one more than the parts that the frame has, and at most 3.
    PartialNextNumber,
    /// The part is that of the frame's settings and of its shutter's time.
    PartialOfFrame,
    /// The frame has no request error and no result error.
    PartialWithoutError,
    /// The script has no request fault of the frame.
    PartialWithoutRequestFault,
    /// Of the last part: the script has no result fault of the frame.
    LastPartWithoutResultFault,
    /// Of the last part: the metadata of every earlier frame ended.
    LastPartInOrder,

    // ---- D13: a buffer with its picture, or early
    /// The buffer is at the device by the frame's send, for the stream.
    DeliveryAtDevice,
    /// The frame has its shutter.
    DeliveryBehindShutter,
    /// The script has no request fault of the frame and no fault of this buffer.
    DeliveryWithoutFault,
    /// Neither the request's error nor this buffer's was told.
    DeliveryWithoutError,
    /// There was no acquire fence, or it is signalled.
    DeliveryBehindFence,
    /// Every earlier frame with the stream had that buffer returned or its error told, or failed whole.
    DeliveryInOrder,
    /// Of a buffer with its picture: the digest is that of the frame's picture.
    PictureOfFrame,
    /// Of an early return: the script has the line `early`.
    EarlyInScript,
    /// Of an early return: the device fence is the next.
    EarlyNextFence,

    // ---- D13: a picture that comes late
    /// A buffer came back early with the device fence.
    LateOfEarlyBuffer,
    /// The device fence isn't signalled.
    LateToldOnce,
    /// The digest is that of the buffer's picture.
    LatePictureOfFrame,

    // ---- D14: the error of a request
    /// The frame is open.
    RequestErrorOfOpenFrame,
    /// There is no partial result, no buffer and no error of the frame.
    RequestErrorOfBareFrame,
    /// Its cause is a stop, or a request fault of the script.
    RequestErrorHasCause,
    /// By the fault alone it comes behind the frame's shutter.
    RequestErrorBehindShutter,

    // ---- D14: the error of the metadata
    /// The frame has its shutter.
    ResultErrorBehindShutter,
    /// The frame's metadata hasn't ended.
    ResultErrorOfOpenMetadata,
    /// The metadata of every earlier frame ended.
    ResultErrorInOrder,
    /// Its cause is a stop, or a result fault of the script.
    ResultErrorHasCause,
    /// By a stop alone it comes behind something of the frame: metadata, a buffer or an error.
    ResultErrorBehindSomething,

    // ---- D14: the error of a buffer
    /// The stream is a target of the frame.
    BufferErrorOfTarget,
    /// The frame has its shutter.
    BufferErrorBehindShutter,
    /// The frame has no request error.
    BufferErrorWithoutRequestError,
    /// The error of this buffer wasn't told.
    BufferErrorToldOnce,
    /// The buffer isn't returned.
    BufferErrorOfMissingBuffer,
    /// Its cause is a stop, or a fault of this buffer.
    BufferErrorHasCause,
    /// By a stop alone it comes behind something of the frame: metadata, a buffer or an error.
    BufferErrorBehindSomething,

    // ---- D14: either of these two
    /// Where the script has a request fault of the frame, something stopped the frame: else it fails whole.
    PartErrorOfStoppedRequest,

    // ---- D14: the error of the device
    /// Nothing stops.
    DeviceErrorNothingStops,
    /// Some frame that has a device fault is the next for the sensor.
    DeviceErrorAtFault,

    // ---- D14: a buffer in error
    /// The buffer is at the device by the frame's send, for the stream.
    FailedAtDevice,
    /// The error of this buffer was told, or that of its request.
    FailedBehindError,
    /// The fence is the acquire fence where that isn't signalled, else none.
    FailedFence,

    // ---- D15: a release
    /// The buffer is at the client.
    ReleaseAtClient,
    /// Where the buffer came back early, its picture is there.
    ReleaseBehindPicture,
    /// The fence is the next.
    ReleaseNextFence,

    // ---- D15: a signal
    /// The fence was released.
    SignalBehindRelease,
    /// The fence isn't signalled.
    SignalToldOnce,

    // ---- D15: a begin
    /// There is a next command, and it is one that waits.
    BeginOfWaitingCommand,
    /// The word is the next command's.
    BeginWord,
    /// No command has begun that isn't answered.
    BeginToldOnce,

    // ---- D15: a call
    /// The index is how many calls stand before.
    CallNextIndex,
    /// The word is that of the script's next command.
    CallWord,
    /// A command that waits has begun.
    CallBehindBegin,
    /// The reply is the command's.
    CallReply,
    /// Of an accepted flush, disconnect, configure, wait or close: no frame is open.
    CallNoFrameOpen,
    /// Of these five: the queue is empty.
    CallQueueEmpty,
    /// Of an accepted configure, wait or close: every buffer is in the pool.
    CallAllInPool,
    /// Of an accepted await: since its begin the device became done with as many repeating frames.
    CallAwaitedFrames,
}
