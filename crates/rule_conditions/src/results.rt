//! The conditions of a shutter and of a partial result.
ghost use Rattle.std.specs.Prelude.{◌≡◌, ◌==◌, ◌+◌, reverse};
ghost use Rattle.rule_conditions.specs.Results.{is_part_of, is_same_partial_result, partial_holds, shutter_holds};
ghost use Rattle.trace_model.specs.Frames.{shutter_time};
ghost use Rattle.trace_model.specs.Partial.{partial_count};

use crate::Condition;
use cam_types::{FrameNo, PartialResult, Script};
use judge_entries::fault::{device_fault, request_fault, result_fault};
use judge_entries::number::partial_count;
use judge_filters::frame::{
    has_error, has_error_request, has_shutter, is_sent, settings_of, shutter_time,
};
use judge_filters::open::has_error_result;
use judge_filters::order::{earlier_exposed, earlier_metadata_ended};
use judge_filters::stopping::is_stopping;
use judge_rules::result_metadata::part_at;
use judge_rules::sensor::next_time;
use trace_model::Entry;

/// Whether the shutter of the frame at the time meets the condition.
pub fn shutter_holds(
    condition: Condition,
    script: &Script,
    entries: &[Entry],
    frame: FrameNo,
    time: u64,
) -> bool
    ensures { result ≡ shutter_holds condition script.now (reverse entries.now) frame.0 time }
{
    match condition {
        Condition::ShutterOfSentFrame => is_sent(entries, frame),
        Condition::ShutterOfFreshFrame => !has_shutter(entries, frame)
            && !has_error(entries, frame),
        Condition::ShutterInOrder => earlier_exposed(entries, frame),
        Condition::ShutterNothingStops => !is_stopping(entries),
        Condition::ShutterWithoutDeviceFault => !device_fault(script, frame),
        Condition::ShutterTime => u128::from(time) == next_time(script, entries),
        _ => true,
    }
}

/// Whether the two are the same.
fn is_same_partial_result(one: PartialResult, other: PartialResult) -> bool
    ensures { result ≡ is_same_partial_result one other }
{
    cam_types::is_same_partial_result(one, other)
}

/// Whether the part is the frame's of that number, where the frame has its shutter.
fn is_part_of(
    script: &Script,
    entries: &[Entry],
    frame: FrameNo,
    number: u8,
    part: PartialResult,
) -> bool
    ensures { let past = reverse entries.now in
        result ≡ is_part_of script.now past frame.0 number part (shutter_time frame.0 past) }
{
    match shutter_time(entries, frame) {
        Some(time) => {
            let due = part_at(number, settings_of(script, entries, frame), time);
            is_same_partial_result(part, due)
        }
        None => true,
    }
}

/// Whether the number is that of the frame's next part.
fn is_next_part(entries: &[Entry], frame: FrameNo, number: u8) -> bool
    ensures { result ≡ (number == partial_count frame.0 (reverse entries.now) + 1) }
{
    number as u128 == partial_count(entries, frame) as u128 + 1
}

/// Whether the partial result of the frame meets the condition.
pub fn partial_holds(
    condition: Condition,
    script: &Script,
    entries: &[Entry],
    frame: FrameNo,
    number: u8,
    part: PartialResult,
) -> bool
    ensures { result ≡ partial_holds condition script.now (reverse entries.now) frame.0 number part }
{
    match condition {
        Condition::PartialBehindShutter => has_shutter(entries, frame),
        Condition::PartialNextNumber => is_next_part(entries, frame, number) && number <= 3,
        Condition::PartialOfFrame => is_part_of(script, entries, frame, number, part),
        Condition::PartialWithoutError => {
            !has_error_request(entries, frame) && !has_error_result(entries, frame)
        }
        Condition::PartialWithoutRequestFault => !request_fault(script, frame),
        Condition::LastPartWithoutResultFault => number != 3 || !result_fault(script, frame),
        Condition::LastPartInOrder => number != 3 || earlier_metadata_ended(entries, frame),
        _ => true,
    }
}
