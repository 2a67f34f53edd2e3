//! The answers of calls: 0, or the negative number that Linux has for the error.
ghost use Rattle.std.specs.Prelude.{◌≡◌};
ghost use Rattle.std.specs.Result.{result_err};
ghost use Rattle.hal_device_c.specs.Answers.{answer_of, number_of, step_answer};

use hal_device_model::CallError;

/// The call is done.
pub(crate) const DONE: i32 = 0;

/// The handle isn't open.
pub(crate) const NOT_OPEN: i32 = -19;

/// An argument is invalid.
pub(crate) const INVALID: i32 = -22;

/// There is no memory.
pub(crate) const NO_MEMORY: i32 = -12;

/// The number of an error.
pub(crate) fn number_of(error: CallError) -> i32
    ensures { result ≡ number_of error }
{
    match error {
        CallError::InvalidArgument => INVALID,
        CallError::NoDevice => NOT_OPEN,
        CallError::WrongSequence => -38,
        CallError::NoMemory => NO_MEMORY,
        CallError::Busy => -11,
    }
}

/// The answer of a call of the framework's.
pub(crate) fn answer_of(ended: Result<(), CallError>) -> i32
    ensures { result ≡ answer_of (result_err ended) }
{
    match ended {
        Ok(()) => DONE,
        Err(error) => number_of(error),
    }
}

/// The answer of a step: EAGAIN where it isn't ready.
pub(crate) fn step_answer(is_made: bool) -> i32
    ensures { result ≡ step_answer is_made }
{
    if is_made {
        DONE
    } else {
        number_of(CallError::Busy)
    }
}
