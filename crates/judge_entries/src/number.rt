//! The numbers that entries give away.
ghost use Rattle.std.specs.Prelude.{◌≡◌, ◌+◌, ◌<◌, ◌^◌, reverse, option_to_list, sum_by};
ghost use Rattle.cam_types.specs.Four.{four_list};
ghost use Rattle.cam_types.specs.declared.reply.Made.{Made as SomeMade};
ghost use Rattle.trace_model.specs.Calls.{request_count};
ghost use Rattle.trace_model.specs.Numbers.{next_number, next_fence, next_early, call_count};
ghost use Rattle.trace_model.specs.Partial.{partial_count};
ghost use Rattle.trace_model.specs.Queue.{sent_for};

use crate::entry::{
    is_call, is_early, is_numbering, is_partial, is_release, is_submission, sends_for,
};
use cam_types::{Four, FrameNo, Made, RequestId};
use trace_model::Entry;

/// The number of the next frame.
pub fn next_number(entries: &[Entry]) -> usize
    ensures { result ≡ next_number (reverse entries.now) }
{
    let mut count = 0;
    for entry in entries {
        if is_numbering(entry) {
            count += 1;
        }
    }
    count
}

/// The number of the next fence.
pub fn next_fence(entries: &[Entry]) -> usize
    ensures { result ≡ next_fence (reverse entries.now) }
{
    let mut count = 0;
    for entry in entries {
        if is_release(entry) {
            count += 1;
        }
    }
    count
}

/// The number of the next device fence.
pub fn next_early(entries: &[Entry]) -> usize
    ensures { result ≡ next_early (reverse entries.now) }
{
    let mut count = 0;
    for entry in entries {
        if is_early(entry) {
            count += 1;
        }
    }
    count
}

/// How many commands were answered.
pub fn call_count(entries: &[Entry]) -> usize
    ensures { result ≡ call_count (reverse entries.now) }
{
    let mut count = 0;
    for entry in entries {
        if is_call(entry) {
            count += 1;
        }
    }
    count
}

/// How many requests were accepted, which is the number of the next.
pub fn request_count(entries: &[Entry]) -> usize
    ensures { result ≡ request_count (reverse entries.now) }
{
    let mut count = 0;
    for entry in entries {
        if is_submission(entry) {
            count += 1;
        }
    }
    count
}

/// How many partial results the frame has.
pub fn partial_count(entries: &[Entry], frame: FrameNo) -> usize
    ensures { result ≡ partial_count frame.0 (reverse entries.now) }
{
    let mut count = 0;
    for entry in entries {
        if is_partial(entry, frame) {
            count += 1;
        }
    }
    count
}

/// How many items of the request were sent.
pub fn sent_for(entries: &[Entry], request: RequestId) -> usize
    ensures { result ≡ sent_for request.0 (reverse entries.now) }
{
    let mut count = 0;
    for entry in entries {
        if sends_for(entry, request) {
            count += 1;
        }
    }
    count
}

fn count_of(made: Option<Made>) -> u64
    ensures value { result ≡ sum_by (λ (m : SomeMade). m.count) (option_to_list made) }
    ensures few { result < 2 ^ 32 }
{
    match made {
        Some(made) => made.count as u64,
        None => 0,
    }
}

/// How many buffers are made for all streams of a configuration.
pub fn made_in(each: &Four<Made>) -> u64
    ensures value { result ≡ sum_by (λ (m : SomeMade). m.count) (four_list each.now) }
    ensures few { result < 2 ^ 34 }
{
    count_of(each.a) + (count_of(each.b) + (count_of(each.c) + count_of(each.d)))
}
