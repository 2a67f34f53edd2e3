//! Buffers that come back.
ghost use Rattle.std.specs.Prelude.{◌≡◌, ◌&&◌};
ghost use Rattle.std.specs.List.{list_any};
ghost use Rattle.hal_model.specs.Words.{is_absent, is_any, is_failed_buffer, is_filled, is_good, is_number};
ghost use Rattle.hal_model.specs.Callbacks.{is_not_filled};
ghost use Rattle.hal_rows.specs.Row.{is_orderly_in};
ghost use Rattle.hal_row.specs.Asked.{is_asked};

use crate::word::is_number;
use hal_model::{HalFence, Returned, Status};

/// Whether the buffer is ok.
pub fn is_filled(buffer: &Returned) -> bool
    ensures { result ≡ is_filled buffer.now }
{
    matches!(buffer.status, Status::Filled)
}

/// Whether the buffer is in error.
pub fn is_failed_buffer(buffer: &Returned) -> bool
    ensures { result ≡ is_failed_buffer buffer.now }
{
    matches!(buffer.status, Status::Failed)
}

/// Whether there is no release fence.
pub fn is_absent(fence: HalFence) -> bool
    ensures { result ≡ is_absent fence }
{
    matches!(fence, HalFence::Absent)
}

/// Whether the buffer is good: ok, and not an early return, which may still fail.
pub fn is_good(buffer: &Returned) -> bool
    ensures { result ≡ is_good buffer.now }
{
    is_filled(buffer) && is_absent(buffer.release)
}

/// Whether the buffer isn't a failed one in a flush.
pub fn is_orderly(flushing: bool, buffer: &Returned) -> bool
    ensures { result ≡ is_orderly_in flushing buffer.now }
{
    !(is_failed_buffer(buffer) && flushing)
}

/// Whether a buffer is good.
pub(crate) fn has_good(buffers: &[Returned]) -> bool
    ensures { result ≡ list_any is_good buffers.now }
{
    buffers.iter().any(|back| is_good(back))
}

// ---- the buffer of a number among those that come back

/// Which buffers are asked for.
#[derive(Clone, Copy)]
enum Asked {
    Any,
    Filled,
    Good,
    Failed,
    /// What the strict order counts.
    Orderly(bool),
    /// What it counts, and isn't ok.
    Other(bool),
}

/// Whether the buffer is one of those.
fn is_asked(asked: Asked, buffer: &Returned) -> bool
    ensures { result ≡ is_asked asked buffer.now }
{
    match asked {
        Asked::Any => true,
        Asked::Filled => is_filled(buffer),
        Asked::Good => is_good(buffer),
        Asked::Failed => is_failed_buffer(buffer),
        Asked::Orderly(flushing) => is_orderly(flushing, buffer),
        Asked::Other(flushing) => !is_filled(buffer) && is_orderly(flushing, buffer),
    }
}

/// Whether the buffer of the number is among them, and one of those.
fn is_given(asked: Asked, number: u32, buffers: &[Returned]) -> bool
    ensures { result ≡ list_any (λ r. is_asked asked r && is_number number r.buffer) buffers.now }
{
    buffers.iter().any(|back| is_asked(asked, back) && is_number(number, back.buffer))
}

/// Whether it is among them.
pub fn is_back(number: u32, buffers: &[Returned]) -> bool
    ensures { result ≡ list_any (λ r. is_any r && is_number number r.buffer) buffers.now }
{
    is_given(Asked::Any, number, buffers)
}

/// Whether it is ok.
pub fn is_back_filled(number: u32, buffers: &[Returned]) -> bool
    ensures { result ≡ list_any (λ r. is_filled r && is_number number r.buffer) buffers.now }
{
    is_given(Asked::Filled, number, buffers)
}

/// Whether it is good.
pub fn is_back_good(number: u32, buffers: &[Returned]) -> bool
    ensures { result ≡ list_any (λ r. is_good r && is_number number r.buffer) buffers.now }
{
    is_given(Asked::Good, number, buffers)
}

/// Whether it is in error.
pub fn is_back_failed(number: u32, buffers: &[Returned]) -> bool
    ensures { result ≡ list_any (λ r. is_failed_buffer r && is_number number r.buffer) buffers.now }
{
    is_given(Asked::Failed, number, buffers)
}

/// Whether the strict order counts it.
pub fn is_back_orderly(flushing: bool, number: u32, buffers: &[Returned]) -> bool
    ensures { result ≡
        list_any (λ r. (is_any r && is_orderly_in flushing r) && is_number number r.buffer) buffers.now }
{
    is_given(Asked::Orderly(flushing), number, buffers)
}

/// Whether the strict order counts it, and it isn't ok.
pub fn is_back_other(flushing: bool, number: u32, buffers: &[Returned]) -> bool
    ensures { result ≡
        list_any (λ r. (is_not_filled r && is_orderly_in flushing r) && is_number number r.buffer) buffers.now }
{
    is_given(Asked::Other(flushing), number, buffers)
}
