//! What is asked of the targets of a send.
ghost use Rattle.std.specs.Prelude.{◌≡◌, reverse, option_to_list};
ghost use Rattle.std.specs.List.{list_all};
ghost use Rattle.cam_types.specs.Four.{four_list};
ghost use Rattle.rule_conditions.specs.Parts.{target_holds};
ghost use Rattle.rule_conditions.specs.Sends.{has_its_fence, is_from_pool};

use crate::Condition;
use cam_types::{Four, Script};
use judge_filters::fence::{fence_of, is_same_fence};
use judge_rules::room::{is_room_left, made_for};
use judge_rules::target::{is_home, is_one_of};
use trace_model::{Entry, Sent};

/// Whether the target's buffer is one of its stream's, and in the pool.
fn is_from_pool(entries: &[Entry], target: Sent) -> bool
    ensures { result ≡ is_from_pool (reverse entries.now) target }
{
    is_one_of(made_for(entries, target.stream), target.buffer) && is_home(entries, target.buffer)
}

/// Whether the target has the fence that its buffer has in the pool.
fn has_its_fence(entries: &[Entry], target: Sent) -> bool
    ensures { result ≡ has_its_fence (reverse entries.now) target }
{
    is_same_fence(target.fence, fence_of(entries, target.buffer))
}

/// Whether the target meets the condition.
fn target_holds(condition: Condition, script: &Script, entries: &[Entry], target: Sent) -> bool
    ensures { result ≡ target_holds condition script.now (reverse entries.now) target }
{
    match condition {
        Condition::SendFromPool => is_from_pool(entries, target),
        Condition::SendFenceOfBuffer => has_its_fence(entries, target),
        Condition::SendBelowMaxBuffers => is_room_left(script, entries, target.stream),
        _ => true,
    }
}

fn holds_where_there(
    condition: Condition,
    script: &Script,
    entries: &[Entry],
    target: Option<Sent>,
) -> bool
    ensures { result ≡ list_all (target_holds condition script.now (reverse entries.now)) (option_to_list target) }
{
    match target {
        Some(target) => target_holds(condition, script, entries, target),
        None => true,
    }
}

/// Whether each target meets the condition.
#[tactic(auto, using(judge_entries::proofs::General::four_all))]
pub fn targets_hold(
    condition: Condition,
    script: &Script,
    entries: &[Entry],
    targets: Four<Sent>,
) -> bool
    ensures { result ≡ list_all (target_holds condition script.now (reverse entries.now)) (four_list targets) }
{
    holds_where_there(condition, script, entries, targets.a)
        && (holds_where_there(condition, script, entries, targets.b)
            && (holds_where_there(condition, script, entries, targets.c)
                && holds_where_there(condition, script, entries, targets.d)))
}
