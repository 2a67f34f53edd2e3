//! When a partial result may come.
ghost use Rattle.std.specs.Prelude.{◌≡◌, reverse};
ghost use Rattle.cam_types.specs.Metadata.{part_at};
ghost use Rattle.trace_model.specs.Frames.{shutter_time};
ghost use Rattle.trace_model.specs.Partial.{may_have_partial, partial_of};

use cam_types::{FrameNo, PartialResult, Script, Settings};
use judge_entries::fault::{request_fault, result_fault};
use judge_filters::frame::{has_error_request, settings_of, shutter_time};
use judge_filters::open::has_error_result;
use judge_filters::order::earlier_metadata_ended;
use trace_model::Entry;

/// Whether the frame's partial result of the number may come.
pub fn may_have_partial(script: &Script, entries: &[Entry], frame: FrameNo, number: u8) -> bool
    ensures { result ≡ may_have_partial script.now (reverse entries.now) frame.0 number }
{
    (!has_error_request(entries, frame)
        && (!has_error_result(entries, frame) && !request_fault(script, frame)))
        && (number <= 3
            && (number != 3
                || (!result_fault(script, frame) && earlier_metadata_ended(entries, frame))))
}

/// The metadata of a frame with these settings and this shutter time, for a number from 1 to 3.
pub fn part_at(number: u8, settings: Settings, time: u64) -> PartialResult
    ensures { result ≡ part_at number settings time }
{
    match number {
        1 => PartialResult::Look {
            pattern: settings.pattern,
            level: settings.level,
        },
        2 => PartialResult::Light {
            exposure: settings.exposure,
            iso: settings.iso,
        },
        _ => PartialResult::Time { timestamp: time },
    }
}

/// The frame's partial result of the number, where the frame had its shutter at the time.
fn partial_of(
    script: &Script,
    entries: &[Entry],
    frame: FrameNo,
    number: u8,
    time: Option<u64>,
) -> Option<Entry>
    ensures { result ≡ partial_of script.now (reverse entries.now) frame.0 number time }
{
    match time {
        Some(time) => {
            if may_have_partial(script, entries, frame, number) {
                Some(Entry::Partial {
                    frame,
                    number,
                    part: part_at(number, settings_of(script, entries, frame), time),
                })
            } else {
                None
            }
        }
        None => None,
    }
}

/// The frame's partial result of the number.
pub fn part_numbered(
    script: &Script,
    entries: &[Entry],
    frame: FrameNo,
    number: u8,
) -> Option<Entry>
    ensures { result ≡
        partial_of script.now (reverse entries.now) frame.0 number (shutter_time frame.0 (reverse entries.now)) }
{
    let time = shutter_time(entries, frame);
    partial_of(script, entries, frame, number, time)
}
