//! The mark of a send: whether the device keeps the settings of the frame before.
ghost use Rattle.std.specs.Prelude.{◌≡◌, reverse};
ghost use Rattle.trace_model.specs.Send.{are_last, are_same, is_same_bool, last_settings, mark_of};
ghost use Rattle.judge_rules.specs.Steps.{settings_after};

use cam_types::{Reply, Script, Settings};
use judge_filters::call::item_at;
use judge_filters::frame::settings_in;
use trace_model::Entry;

/// The settings of the last frame up to the entry: the entries before it are given, and the settings that they lead to.
fn settings_after(
    last: Option<Settings>,
    script: &Script,
    before: &[Entry],
    entry: &Entry,
) -> Option<Settings>
    ensures { result ≡ settings_after last script.now (reverse before.now) entry.now }
{
    match entry {
        Entry::Call {
            reply: Reply::Configured(_),
            ..
        } => None,
        Entry::Send { request, item, .. } => {
            Some(settings_in(item_at(script, before, *request, *item)))
        }
        _ => last,
    }
}

/// The settings of the last frame that was sent after the last accepted configuration.
#[tactic(auto, using(crate::proofs::PastLemmas::settings_more))]
pub fn last_settings(script: &Script, entries: &[Entry]) -> Option<Settings>
    ensures { result ≡ last_settings script.now (reverse entries.now) }
{
    let mut last = None;
    for (index, entry) in entries.iter().enumerate() {
        last = settings_after(last, script, &entries[..index], entry);
    }
    last
}

fn are_same(one: Settings, other: Settings) -> bool
    ensures { result ≡ are_same one other }
{
    one.pattern == other.pattern
        && (one.level == other.level && (one.exposure == other.exposure && one.iso == other.iso))
}

/// Whether the settings are those that were sent last, if any were.
pub fn are_last(last: Option<Settings>, settings: Settings) -> bool
    ensures { result ≡ are_last last settings }
{
    match last {
        Some(last) => are_same(last, settings),
        None => false,
    }
}

/// Whether the settings are those of the last frame, so that the device needn't be told them again.
pub fn mark_of(script: &Script, entries: &[Entry], settings: Settings) -> bool
    ensures { result ≡ mark_of script.now (reverse entries.now) settings }
{
    are_last(last_settings(script, entries), settings)
}

/// Whether the send has the mark.
pub fn is_same_mark(same: bool, mark: bool) -> bool
    ensures { result ≡ is_same_bool same mark }
{
    same == mark
}
