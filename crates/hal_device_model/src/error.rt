//! The errors that a call of the device ends with.

/// Why a call of the device fails (camera3.h, S6 and the return values of its operations).
#[derive(Clone, Copy, Debug, PartialEq, Eq)]
pub enum CallError {
    /// EINVAL: an argument is invalid.
    InvalidArgument,
    /// ENODEV: the device failed, and can only be closed.
    NoDevice,
    /// ENOSYS: the call comes in the wrong sequence.
    WrongSequence,
    /// ENOMEM: there is no memory.
    NoMemory,
    /// EAGAIN: the call has to wait until a step or a flush makes room, and is made anew then.
    Busy,
}
