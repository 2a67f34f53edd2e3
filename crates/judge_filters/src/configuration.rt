//! The streams and buffers of the last accepted configuration.
ghost use Rattle.std.specs.Prelude.{◌≡◌, reverse, option_copied};
ghost use Rattle.cam_types.specs.Four.{four_list};
ghost use Rattle.trace_model.specs.Configuration.{streams, made, is_configured};
ghost use Rattle.judge_filters.specs.Past.{streams_in, made_in};

use crate::wanted::{Wanted, last, stands};
use cam_types::{Command, Four, Made, Reply, Script, StreamSpec};
use judge_entries::command::command_at;
use trace_model::Entry;

/// The streams that a call configures.
fn streams_in<'s>(script: &'s Script, entry: Option<&Entry>) -> &'s [StreamSpec]
    ensures { result.now ≡ streams_in script.now (option_copied entry.entry) }
{
    match entry {
        Some(Entry::Call { index, .. }) => match command_at(script, *index) {
            Some(Command::Configure(specs)) => specs.as_slice(),
            _ => &[],
        },
        _ => &[],
    }
}

/// The streams.
#[tactic(auto, using(crate::proofs::PastLemmas::streams_found))]
pub fn streams<'s>(script: &'s Script, entries: &[Entry]) -> &'s [StreamSpec]
    ensures { result.now ≡ streams script.now (reverse entries.now) }
{
    streams_in(script, last(entries, Wanted::Configuration))
}

/// The buffers that a call makes for each stream.
fn made_in(entry: Option<&Entry>) -> Four<Made>
    ensures { four_list result ≡ made_in (option_copied entry.entry) }
{
    match entry {
        Some(
            Entry::Call {
                reply: Reply::Configured(each),
                ..
            },
        ) => *each,
        _ => Four {
            a: None,
            b: None,
            c: None,
            d: None,
        },
    }
}

/// The buffers made for each stream.
#[tactic(auto, using(crate::proofs::PastLemmas::made_found))]
pub fn made(entries: &[Entry]) -> Four<Made>
    ensures { four_list result ≡ made (reverse entries.now) }
{
    made_in(last(entries, Wanted::Configuration))
}

/// Whether a configuration was accepted.
pub fn is_configured(entries: &[Entry]) -> bool
    ensures { result ≡ is_configured (reverse entries.now) }
{
    stands(entries, Wanted::Configuration)
}
