//! Whether a send is due, with the mark and the targets.
ghost use Rattle.std.specs.Prelude.{◌≡◌, ◌==◌, ◌&&◌, ◌||◌, nat_lt, not, length, option_to_list, slice_get};
ghost use Rattle.std.specs.List.{list_all, range_with_len};
ghost use Rattle.cam_types.specs.Four.{four_list};
ghost use Rattle.cam_types.specs.Profile.{max_buffers_of};
ghost use Rattle.trace_model.specs.Place.{Pool as ThePool, is_at};
ghost use Rattle.trace_model.specs.Printable.{is_filled};
ghost use Rattle.trace_model.specs.Send.{are_last, are_streams, is_same_bool, targets_in_order};
ghost use Rattle.state_facts.specs.Homes.{place_in, stream_in};
ghost use Rattle.state_facts.specs.States.{fits_in, has_room_in, may_go_in, may_send_in, takes_in};
ghost use Rattle.judge_rules.specs.Asked.{asks, left_from};

use cam_types::{
    BufferId, Four, FrameNo, Queued, RequestId, STREAM_LIMIT, Script, StreamIx, Targets,
};
use judge_filters::fence::is_same_fence;
use judge_rows::{Home, JudgeTables};
use judge_rules::mark::{are_last, is_same_mark};
use judge_rules::stream::{are_streams, asks_for};
use judge_rules::target::{is_filled, is_one_of};
use trace_model::Sent;

/// The number past the last stream that an item can ask for.
const STREAMS_END: u8 = STREAM_LIMIT as u8;

/// How many of the stream's buffers may be at the device.
fn max_buffers(script: &Script, tables: &JudgeTables, stream: StreamIx) -> u32
    ensures { result ≡ max_buffers_of script.now.profile (slice_get tables.now.state.client.streams stream.0) }
{
    match tables.client().stream(stream) {
        Some(spec) => script.profile.max_buffers(spec.format),
        None => 0,
    }
}

/// Whether the device takes a further buffer of the stream.
fn has_room(script: &Script, tables: &JudgeTables, stream: StreamIx) -> bool
    ensures { result ≡ has_room_in script.now tables.now.state stream.0 }
{
    tables.homes().at_device(stream) < max_buffers(script, tables, stream) as usize
}

fn has_room_where_asked(script: &Script, tables: &JudgeTables, asked: Targets, stream: u8) -> bool
    ensures { result ≡ (not (asks asked stream) || has_room_in script.now tables.now.state stream) }
{
    !asks_for(asked, stream) || has_room(script, tables, StreamIx(stream))
}

fn have_room_where_asked(script: &Script, tables: &JudgeTables, asked: Targets) -> bool
    ensures { result ≡
        list_all (λ s. not (asks asked s) || has_room_in script.now tables.now.state s) (range_with_len 0 4) }
{
    (0..STREAMS_END).all(|stream| has_room_where_asked(script, tables, asked, stream))
}

/// Whether the device takes a further buffer of each stream that is asked for.
#[tactic(auto, using(judge_rules::proofs::StreamLemmas::all_asked))]
fn have_room(script: &Script, tables: &JudgeTables, asked: Targets) -> bool
    ensures { result ≡ list_all (has_room_in script.now tables.now.state) (left_from (asks asked) 0) }
{
    have_room_where_asked(script, tables, asked)
}

fn has_depth(script: &Script, tables: &JudgeTables) -> bool
    ensures { result ≡ nat_lt (length tables.now.state.rows) script.now.profile.depth }
{
    tables.rows().len() < script.profile.depth as usize
}

/// Whether nothing stands against sending the item now, whatever buffers it takes.
pub fn may_go(script: &Script, tables: &JudgeTables, next: Queued) -> bool
    ensures { result ≡ may_go_in script.now tables.now.state next }
{
    !tables.client().is_stopping()
        && ((has_depth(script, tables) && have_room(script, tables, next.item.targets))
            && (!next.repeating || tables.client().may_repeat(script)))
}

fn is_in_pool(tables: &JudgeTables, buffer: BufferId) -> bool
    ensures { result ≡ is_at (place_in tables.now.state.buffers buffer.0) ThePool }
{
    matches!(tables.homes().home(buffer.0 as u64), Home::Pool)
}

/// Whether the target's buffer is one of its stream's, is in the pool, and comes with the fence that it has there.
fn takes(tables: &JudgeTables, target: Sent) -> bool
    ensures { result ≡ takes_in tables.now.state target }
{
    is_one_of(tables.homes().made(target.stream), target.buffer)
        && (is_in_pool(tables, target.buffer)
            && is_same_fence(target.fence, tables.homes().fence(target.buffer)))
}

fn takes_where_there(tables: &JudgeTables, target: Option<Sent>) -> bool
    ensures { result ≡ list_all (takes_in tables.now.state) (option_to_list target) }
{
    match target {
        Some(target) => takes(tables, target),
        None => true,
    }
}

/// Whether each target takes its buffer from the pool.
fn all_take(tables: &JudgeTables, targets: Four<Sent>) -> bool
    ensures { result ≡ list_all (takes_in tables.now.state) (four_list targets) }
{
    takes_where_there(tables, targets.a)
        && (takes_where_there(tables, targets.b)
            && (takes_where_there(tables, targets.c) && takes_where_there(tables, targets.d)))
}

fn fit_item(tables: &JudgeTables, targets: Four<Sent>, asked: Targets) -> bool
    ensures { result ≡
        (are_streams (four_list targets) (left_from (asks asked) 0)
        && (is_filled targets && list_all (takes_in tables.now.state) (four_list targets))) }
{
    are_streams(targets, asked) && (is_filled(targets) && all_take(tables, targets))
}

fn is_named(
    tables: &JudgeTables,
    next: Queued,
    frame: FrameNo,
    request: RequestId,
    item: u32,
) -> bool
    ensures { result ≡
        ((frame.0 == tables.now.state.queue.numbers) && ((request.0 == next.request.0) && (item == next.index))) }
{
    frame.0 == tables.captures().next_frame().0
        && (request.0 == next.request.0 && item == next.index)
}

fn may_send(
    script: &Script,
    tables: &JudgeTables,
    next: Queued,
    same: bool,
    targets: Four<Sent>,
) -> bool
    ensures { let s = tables.now.state in
        result ≡
        (may_go_in script.now s next
        && ((are_streams (four_list targets) (targets_in_order next.item)
        && (is_filled targets && list_all (takes_in s) (four_list targets)))
        && is_same_bool same (are_last s.last next.item.settings))) }
{
    may_go(script, tables, next)
        && (fit_item(tables, targets, next.item.targets)
            && is_same_mark(same, are_last(tables.last(), next.item.settings)))
}

/// Whether the send of the item under the number is due, with the mark and the targets.
pub(crate) fn is_send_due(
    script: &Script,
    tables: &JudgeTables,
    frame: FrameNo,
    request: RequestId,
    item: u32,
    same: bool,
    targets: Four<Sent>,
) -> bool
    ensures { result ≡ may_send_in script.now tables.now.state frame.0 request.0 item same targets }
{
    match tables.captures().peek() {
        Some(next) => is_named(tables, next, frame, request, item)
            && may_send(script, tables, next, same, targets),
        None => false,
    }
}
