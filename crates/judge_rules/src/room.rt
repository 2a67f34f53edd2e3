//! Whether the device takes a further buffer of a stream.
ghost use Rattle.std.specs.Prelude.{◌≡◌, ◌++◌, reverse, filter, length, slice_get, option_to_list, option_copied};
ghost use Rattle.std.specs.List.{range_with_len};
ghost use Rattle.cam_types.specs.Four.{four_list};
ghost use Rattle.trace_model.specs.Configuration.{numbers_of, made, streams};
ghost use Rattle.cam_types.specs.Profile.{max_buffers_of};
ghost use Rattle.trace_model.specs.Place.{Device, place, is_at};
ghost use Rattle.trace_model.specs.Send.{at_device_count, has_room};

use cam_types::{Four, Made, Script, StreamIx};
use judge_filters::configuration::{made, streams};
use judge_filters::place::is_at_device;
use trace_model::Entry;

fn of_last(last: Option<Made>, place: u8) -> Option<Made>
    ensures { result ≡ slice_get (option_to_list last) place }
{
    if place == 0 { last } else { None }
}

fn of_third_on(third: Option<Made>, last: Option<Made>, place: u8) -> Option<Made>
    ensures { result ≡ slice_get (option_to_list third ++ option_to_list last) place }
{
    match third {
        Some(_) => {
            if place == 0 {
                third
            } else {
                of_last(last, place - 1)
            }
        }
        None => of_last(last, place),
    }
}

fn of_second_on(
    second: Option<Made>,
    third: Option<Made>,
    last: Option<Made>,
    place: u8,
) -> Option<Made>
    ensures { result ≡ slice_get (option_to_list second ++ (option_to_list third ++ option_to_list last)) place }
{
    match second {
        Some(_) => {
            if place == 0 {
                second
            } else {
                of_third_on(third, last, place - 1)
            }
        }
        None => of_third_on(third, last, place),
    }
}

/// What is at the place of those that are there, in order.
fn at_place(each: Four<Made>, place: u8) -> Option<Made>
    ensures { result ≡ slice_get (four_list each) place }
{
    match each.a {
        Some(_) => {
            if place == 0 {
                each.a
            } else {
                of_second_on(each.b, each.c, each.d, place - 1)
            }
        }
        None => of_second_on(each.b, each.c, each.d, place),
    }
}

/// The buffers made for the stream.
pub fn made_for(entries: &[Entry], stream: StreamIx) -> Option<Made>
    ensures { result ≡ slice_get (made (reverse entries.now)) stream.0 }
{
    at_place(made(entries), stream.0)
}

/// How many of the buffers are at the device.
fn count_at_device(entries: &[Entry], made: Made) -> usize
    ensures { result ≡
        length (filter (λ b. is_at (place b (reverse entries.now)) Device) (range_with_len made.first.0 made.count)) }
{
    let first = u64::from(made.first.0);
    let mut count = 0;
    for number in first..first + u64::from(made.count) {
        if is_at_device(entries, number) {
            count += 1;
        }
    }
    count
}

/// How many buffers of the stream are at the device.
fn at_device_count(entries: &[Entry], stream: StreamIx) -> usize
    ensures { result ≡ at_device_count (reverse entries.now) stream.0 }
{
    match made_for(entries, stream) {
        Some(made) => count_at_device(entries, made),
        None => 0,
    }
}

/// How many buffers of the stream may be at the device.
fn max_buffers_of(script: &Script, entries: &[Entry], stream: StreamIx) -> u32
    ensures { result ≡
        max_buffers_of script.now.profile (slice_get (streams script.now (reverse entries.now)) stream.0) }
{
    match streams(script, entries).get(stream.0 as usize) {
        Some(spec) => script.profile.max_buffers(spec.format),
        None => 0,
    }
}

/// Whether the device takes a further buffer of the stream.
pub fn is_room_left(script: &Script, entries: &[Entry], stream: StreamIx) -> bool
    ensures { result ≡ has_room script.now (reverse entries.now) stream.0 }
{
    at_device_count(entries, stream) < max_buffers_of(script, entries, stream) as usize
}
