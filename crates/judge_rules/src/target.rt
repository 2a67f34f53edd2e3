//! The buffers that an item is sent with.
ghost use Rattle.std.specs.Prelude.{◌≡◌, ◌==◌, ◌&&◌, reverse, option_to_list};
ghost use Rattle.std.specs.List.{list_all, list_any};
ghost use Rattle.cam_types.specs.Four.{four_list};
ghost use Rattle.trace_model.specs.Configuration.{is_made, numbers_of};
ghost use Rattle.trace_model.specs.Place.{Pool, is_at, place};
ghost use Rattle.trace_model.specs.Printable.{is_filled};
ghost use Rattle.trace_model.specs.Send.{takes_from_pool};
ghost use Rattle.judge_rules.specs.Asked.{asks, left_from, fit};

use crate::room::made_for;
use crate::stream::are_streams;
use cam_types::{BufferId, Four, Made, Targets};
use judge_filters::fence::{fence_of, is_same_fence};
use judge_filters::place::is_in_pool;
use trace_model::{Entry, Sent};

/// Whether the buffer is one of those made.
fn is_made(made: Made, buffer: BufferId) -> bool
    ensures { result ≡ is_made buffer.0 made }
{
    let first = u64::from(made.first.0);
    let number = u64::from(buffer.0);
    first <= number && number < first + u64::from(made.count)
}

/// Whether the buffer is one of those made, if any were.
pub fn is_one_of(made: Option<Made>, buffer: BufferId) -> bool
    ensures { result ≡ list_any (λ b. b == buffer.0) (numbers_of made) }
{
    match made {
        Some(made) => is_made(made, buffer),
        None => false,
    }
}

/// Whether the buffer is in the pool.
pub fn is_home(entries: &[Entry], buffer: BufferId) -> bool
    ensures { result ≡ is_at (place buffer.0 (reverse entries.now)) Pool }
{
    is_in_pool(entries, u64::from(buffer.0))
}

/// Whether the target's buffer is one of its stream's, is in the pool, and comes with the fence that it has there.
pub fn takes_from_pool(entries: &[Entry], target: Sent) -> bool
    ensures { result ≡ takes_from_pool (reverse entries.now) target }
{
    is_one_of(made_for(entries, target.stream), target.buffer)
        && (is_home(entries, target.buffer)
            && is_same_fence(target.fence, fence_of(entries, target.buffer)))
}

fn takes_where_there(entries: &[Entry], target: Option<Sent>) -> bool
    ensures { result ≡ list_all (takes_from_pool (reverse entries.now)) (option_to_list target) }
{
    match target {
        Some(target) => takes_from_pool(entries, target),
        None => true,
    }
}

/// Whether each target takes its buffer from the pool.
#[tactic(auto, using(judge_entries::proofs::General::four_all))]
fn all_from_pool(entries: &[Entry], targets: Four<Sent>) -> bool
    ensures { result ≡ list_all (takes_from_pool (reverse entries.now)) (four_list targets) }
{
    takes_where_there(entries, targets.a)
        && (takes_where_there(entries, targets.b)
            && (takes_where_there(entries, targets.c) && takes_where_there(entries, targets.d)))
}

/// Whether the four places are filled from the first on.
pub fn is_filled(targets: Four<Sent>) -> bool
    ensures { result ≡ is_filled targets }
{
    (targets.a.is_some() || !targets.b.is_some())
        && ((targets.b.is_some() || !targets.c.is_some())
            && (targets.c.is_some() || !targets.d.is_some()))
}

/// Whether the targets are for the streams that are asked for, and take their buffers from the pool.
pub fn fit_item(entries: &[Entry], targets: Four<Sent>, asked: Targets) -> bool
    ensures { result ≡ fit (reverse entries.now) targets (left_from (asks asked) 0) }
{
    are_streams(targets, asked) && (is_filled(targets) && all_from_pool(entries, targets))
}
