//! The calls of a trace, which are few: the streams and the requests are read from them alone.
ghost use Rattle.std.specs.Prelude.{◌≡◌, ◌++◌, [], ◌∷◌, OnOk, filter, reverse};
ghost use Rattle.trace_model.specs.Calls.{item_at as item_of_request};
ghost use Rattle.trace_model.specs.Configuration.{streams};
ghost use Rattle.trace_model.specs.Entry.{is_call};

use cam_types::{Item, NoMemory, RequestId, Script, StreamSpec};
use judge_entries::entry::is_call;
use judge_filters::call::item_at;
use judge_filters::configuration::streams;
use trace_model::Entry;

/// Keeps the entry, if it is a call.
pub(crate) fn keep_call(calls: &mut Vec<Entry>, entry: &Entry) -> Result<(), NoMemory>
    ensures { OnOk result (calls.new.items ≡ calls.old.items ++ filter is_call (entry.now ∷ [])) }
{
    if is_call(entry) {
        calls.push(*entry)?;
    }
    Ok(())
}

/// The streams of the configuration that the entries leave, of which the calls are given.
pub(crate) fn streams_by<'s>(
    script: &'s Script,
    entries: &[Entry],
    calls: &[Entry],
) -> &'s [StreamSpec]
    requires { calls.now ≡ filter is_call entries.now }
    ensures { result.now ≡ streams script.now (reverse entries.now) }
{
    streams(script, calls)
}

/// The item of a request that the entries accepted, of which the calls are given.
pub(crate) fn item_by(
    script: &Script,
    entries: &[Entry],
    calls: &[Entry],
    request: RequestId,
    place: u32,
) -> Option<Item>
    requires { calls.now ≡ filter is_call entries.now }
    ensures { result ≡ item_of_request script.now (reverse entries.now) request.0 place }
{
    item_at(script, calls, request, place)
}
