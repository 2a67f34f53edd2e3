//! What was done since the last begin.
ghost use Rattle.std.specs.Prelude.{◌≡◌, reverse, count_by};
ghost use Rattle.judge_rules.specs.Since.{is_begin, is_done_since};
ghost use Rattle.judge_filters.specs.Past.{on_send};
ghost use Rattle.trace_model.specs.Client.{before_begin, done_since_begin};

use cam_types::{FrameNo, Script};
use judge_filters::frame::is_repeating_frame;
use judge_filters::open::is_done;
use trace_model::Entry;

/// Whether the entry begins a command.
fn is_begin(entry: &Entry) -> bool
    ensures { result ≡ is_begin entry.now }
{
    matches!(entry, Entry::Begin { .. })
}

/// The entries before the last begin, and none where nothing began.
#[tactic(auto, using(crate::proofs::SinceLemmas::before_more))]
pub fn before_begin(entries: &[Entry]) -> &[Entry]
    ensures { reverse result.now ≡ before_begin (reverse entries.now) }
{
    let mut count = 0;
    for (place, entry) in entries.iter().enumerate() {
        if is_begin(entry) {
            count = place;
        }
    }
    &entries[..count]
}

/// Whether the frame repeats, is done and wasn't done after the earlier entries.
fn is_done_since(script: &Script, entries: &[Entry], earlier: &[Entry], frame: FrameNo) -> bool
    ensures { result ≡ is_done_since script.now (reverse entries.now) (reverse earlier.now) frame.0 }
{
    is_repeating_frame(script, entries, frame)
        && (is_done(entries, frame) && !is_done(earlier, frame))
}

/// Whether the entry sends a repeating frame that is done and wasn't done after the earlier entries.
fn sends_done_since(script: &Script, entries: &[Entry], earlier: &[Entry], entry: &Entry) -> bool
    ensures { result ≡ on_send (is_done_since script.now (reverse entries.now) (reverse earlier.now)) entry.now }
{
    match entry {
        Entry::Send { frame, .. } => is_done_since(script, entries, earlier, *frame),
        _ => false,
    }
}

fn count_done_since(script: &Script, entries: &[Entry], earlier: &[Entry]) -> usize
    ensures { result ≡
        count_by (on_send (is_done_since script.now (reverse entries.now) (reverse earlier.now)))
        (reverse entries.now) }
{
    let mut count = 0;
    for entry in entries {
        if sends_done_since(script, entries, earlier, entry) {
            count += 1;
        }
    }
    count
}

/// How many repeating frames were done with since the last begin.
pub fn done_since_begin(script: &Script, entries: &[Entry]) -> usize
    ensures { result ≡ done_since_begin script.now (reverse entries.now) }
{
    count_done_since(script, entries, before_begin(entries))
}
