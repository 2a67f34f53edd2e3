//! When the sensor begins to expose a frame.
ghost use Rattle.std.specs.Prelude.{◌≡◌, reverse, find, option_copied, option_map};
ghost use Rattle.judge_filters.specs.Past.{on_send, frame_in};
ghost use Rattle.trace_model.specs.Frames.{frames};
ghost use Rattle.trace_model.specs.Shutter.{next_time, is_next_for_sensor, may_expose};
ghost use Rattle.judge_rules.specs.Rules.{is_at_time, exposes};
ghost use Rattle.judge_rules.specs.Times.{time_after};

use cam_types::{FIRST_SHUTTER, FRAME_TIME, FrameNo, Script};
use judge_entries::fault::device_fault;
use judge_filters::frame::{has_error, has_shutter, is_sent, settings_of};
use judge_filters::order::earlier_exposed;
use judge_filters::stopping::is_stopping;
use trace_model::Entry;

/// The time of the shutter that follows the entry: the entries before it are given, and the time that they lead to.
fn time_after(time: u128, script: &Script, before: &[Entry], entry: &Entry) -> u128
    ensures { result ≡ time_after time script.now (reverse before.now) entry.now }
{
    match entry {
        Entry::Shutter { frame, time: last } => {
            let exposure = settings_of(script, before, *frame).exposure;
            *last as u128 + FRAME_TIME.max(exposure) as u128
        }
        _ => time,
    }
}

/// The time of the next shutter, in nanoseconds.
#[tactic(auto, using(crate::proofs::RuleLemmas::time_more))]
pub fn next_time(script: &Script, entries: &[Entry]) -> u128
    ensures { result ≡ next_time script.now (reverse entries.now) }
{
    let mut time = FIRST_SHUTTER as u128;
    for (index, entry) in entries.iter().enumerate() {
        time = time_after(time, script, &entries[..index], entry);
    }
    time
}

/// Whether the frame is the next for the sensor: all before it had their shutter or failed.
pub fn is_next_for_sensor(entries: &[Entry], frame: FrameNo) -> bool
    ensures { result ≡ is_next_for_sensor frame.0 (reverse entries.now) }
{
    (is_sent(entries, frame) && (!has_shutter(entries, frame) && !has_error(entries, frame)))
        && earlier_exposed(entries, frame)
}

/// Whether the frame may have its shutter.
pub fn may_expose(script: &Script, entries: &[Entry], frame: FrameNo) -> bool
    ensures { result ≡ may_expose script.now (reverse entries.now) frame.0 }
{
    !is_stopping(entries) && (is_next_for_sensor(entries, frame) && !device_fault(script, frame))
}

/// Whether the entry sends a frame that may have its shutter.
fn sends_exposable(script: &Script, entries: &[Entry], entry: &Entry) -> bool
    ensures { result ≡ on_send (may_expose script.now (reverse entries.now)) entry.now }
{
    match entry {
        Entry::Send { frame, .. } => may_expose(script, entries, *frame),
        _ => false,
    }
}

fn send_of_exposable<'e>(script: &Script, entries: &'e [Entry]) -> Option<&'e Entry>
    ensures { option_copied result ≡
        find (on_send (may_expose script.now (reverse entries.now))) (reverse entries.now) }
{
    entries
        .iter()
        .rev()
        .find(|entry| sends_exposable(script, entries, entry))
}

/// The frame of a send.
fn frame_in(entry: Option<&Entry>) -> Option<FrameNo>
    ensures { option_map (λ n. n.0) result ≡ frame_in (option_copied entry.entry) }
{
    match entry {
        Some(Entry::Send { frame, .. }) => Some(*frame),
        _ => None,
    }
}

/// The frame whose shutter is due.
#[tactic(auto, using(judge_filters::proofs::FrameLemmas::frames_find))]
pub fn next_exposed(script: &Script, entries: &[Entry]) -> Option<FrameNo>
    ensures { option_map (λ n. n.0) result ≡
        find (may_expose script.now (reverse entries.now)) (frames (reverse entries.now)) }
{
    frame_in(send_of_exposable(script, entries))
}

/// Whether the shutter of this frame has the frame and the time.
fn is_at_time(
    script: &Script,
    entries: &[Entry],
    next: Option<FrameNo>,
    frame: FrameNo,
    time: u64,
) -> bool
    ensures { result ≡ is_at_time script.now (reverse entries.now) (option_map (λ n. n.0) next) frame.0 time }
{
    match next {
        Some(next) => next.0 == frame.0 && next_time(script, entries) == time as u128,
        None => false,
    }
}

/// Whether the shutter is due.
pub fn exposes(script: &Script, entries: &[Entry], frame: FrameNo, time: u64) -> bool
    ensures { result ≡ exposes script.now (reverse entries.now) frame.0 time }
{
    is_at_time(script, entries, next_exposed(script, entries), frame, time)
}
