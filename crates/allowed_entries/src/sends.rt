//! The send that is due, whatever buffers it takes.
ghost use Rattle.std.specs.Prelude.{◌≡◌, ◌||◌, Option, find, is_some, not, option_to_list};
ghost use Rattle.std.specs.List.{list_all, range_with_len};
ghost use Rattle.state_facts.specs.Homes.{least_in, place_in};
ghost use Rattle.judge_rules.specs.Asked.{asks, left_from};
ghost use Rattle.state_facts.specs.States.{send_in, send_next_in, targets_in};
ghost use Rattle.trace_model.specs.Place.{Pool, is_at};
ghost use Rattle.trace_model.specs.Send.{targets_in_order};
ghost use Rattle.allowed_entries.specs.Known.{shown};

use crate::entry::AllowedEntry;
use cam_types::{Made, Queued, STREAM_LIMIT, Script, StreamIx, Targets};
use judge_rows::{Home, JudgeTables};
use judge_rules::mark::are_last;
use judge_rules::stream::asks_for;
use trace_check::send::may_go;

/// The number past the last stream that an item can ask for.
const STREAMS_END: u8 = STREAM_LIMIT as u8;

fn is_in_pool(tables: &JudgeTables, number: u64) -> bool
    ensures { result ≡ is_at (place_in tables.now.state.buffers number) Pool }
{
    matches!(tables.homes().home(number), Home::Pool)
}

/// The first of the buffers that is in the pool.
fn first_in_pool(tables: &JudgeTables, made: Made) -> Option<u64>
    ensures { result ≡
        find (λ b. is_at (place_in tables.now.state.buffers b) Pool) (range_with_len made.first.0 made.count) }
{
    let first = u64::from(made.first.0);
    let end = first + u64::from(made.count);
    (first..end).find(|number| is_in_pool(tables, *number))
}

/// Whether a buffer of the stream is in the pool.
fn has_free(tables: &JudgeTables, stream: StreamIx) -> bool
    ensures { result ≡ is_some (least_in tables.now.state.buffers stream.0) }
{
    match tables.homes().made(stream) {
        Some(made) => first_in_pool(tables, made).is_some(),
        None => false,
    }
}

fn has_free_where_asked(tables: &JudgeTables, asked: Targets, stream: u8) -> bool
    ensures { result ≡ (not (asks asked stream) || is_some (least_in tables.now.state.buffers stream)) }
{
    !asks_for(asked, stream) || has_free(tables, StreamIx(stream))
}

fn have_free_where_asked(tables: &JudgeTables, asked: Targets) -> bool
    ensures { result ≡
        list_all (λ s. not (asks asked s) || is_some (least_in tables.now.state.buffers s)) (range_with_len 0 4) }
{
    (0..STREAMS_END).all(|stream| has_free_where_asked(tables, asked, stream))
}

/// Whether a buffer of each stream that is asked for is in the pool.
#[tactic(auto, using(judge_rules::proofs::StreamLemmas::all_asked))]
fn have_free(tables: &JudgeTables, asked: Targets) -> bool
    ensures { result ≡ list_all (λ s. is_some (least_in tables.now.state.buffers s)) (left_from (asks asked) 0) }
{
    have_free_where_asked(tables, asked)
}

/// The send of the item, where it is due.
#[tactic(auto, using(crate::proofs::SendLemmas::send_told))]
fn send_next(script: &Script, tables: &JudgeTables, next: Queued) -> Option<AllowedEntry>
    ensures { option_to_list result ≡ shown (send_next_in script.now tables.now.state (Option.Some next)) }
{
    if may_go(script, tables, next) && have_free(tables, next.item.targets) {
        Some(AllowedEntry::Send {
            frame: tables.captures().next_frame(),
            request: next.request,
            item: next.index,
            same: are_last(tables.last(), next.item.settings),
        })
    } else {
        None
    }
}

/// The send that is due.
pub(crate) fn send_due(script: &Script, tables: &JudgeTables) -> Option<AllowedEntry>
    ensures { option_to_list result ≡ shown (send_in script.now tables.now.state) }
{
    match tables.captures().peek() {
        Some(next) => send_next(script, tables, next),
        None => None,
    }
}
