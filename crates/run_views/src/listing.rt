//! The line of the candidates before a move.
ghost use Rattle.std.specs.Prelude.{◌≡◌, length, true};
ghost use Rattle.run_model.specs.History.{trace_of};
ghost use Rattle.service_core.specs.Candidates.{candidates_by};
ghost use Rattle.service_state.specs.Serving.{IsServing};
ghost use Rattle.trace_model.specs.Complete.{IsComplete};
ghost use Rattle.run_views.specs.Listing.{candidate_text, candidates_line, front_of, list_line, listed, named, shown};
ghost use Rattle.run_views.specs.Told.{TellsMore};

use crate::names::put_step;
use crate::teller::Teller;
use io_edge::Sink;
use run_model::StepName;
use run_rows::a_run_is_never_stuck;
use service_core::{Service, candidate_at, candidate_count, candidates_are_read_from_the_parts};
use service_state::ServiceState;

/// Tells the candidates of a service whose run isn't complete, and which of them the script's next pick chooses.
pub(crate) fn put_candidates<K: Sink>(teller: &mut Teller, service: &Service, sink: &mut K)
    requires { ¬ IsComplete service.now.script (trace_of service.now.history) }
    ensures { TellsMore (candidates_line service.now.script service.now.history) teller.old teller.new
        (K.state sink.old) (K.state sink.new) }
{
    service.is_a_run();
    a_run_is_never_stuck();
    candidates_are_read_from_the_parts();
    let state = service.parts();
    let count = candidate_count(state);
    let pick = u64::from(service.pick()) % count;
    put_list(teller, state, pick, count, sink);
}

/// Tells the line of a service's candidates, of which there are so many.
fn put_list<K: Sink>(teller: &mut Teller, state: &ServiceState, pick: u64, count: u64, sink: &mut K)
    requires serving { IsServing state.now }
    requires count { count ≡ length (candidates_by state.now.script state.now.parts) }
    ensures { TellsMore (list_line pick (candidates_by state.now.script state.now.parts)) teller.old teller.new
        (K.state sink.old) (K.state sink.new) }
{
    teller.put(b"pick ", sink);
    teller.put_number(pick, sink);
    teller.put(b" of ", sink);
    teller.put_number(count, sink);
    put_listed(teller, state, pick, count, sink);
    teller.put(b"\n", sink);
}

/// Tells a service's candidates one by one, of which there are so many.
fn put_listed<K: Sink>(
    teller: &mut Teller,
    state: &ServiceState,
    pick: u64,
    count: u64,
    sink: &mut K,
)
    requires serving { IsServing state.now }
    requires count { count ≡ length (candidates_by state.now.script state.now.parts) }
    ensures { TellsMore (listed pick 0 (candidates_by state.now.script state.now.parts)) teller.old teller.new
        (K.state sink.old) (K.state sink.new) }
{
    for place in 0..count {
        match candidate_at(state, place) {
            Some(step) => put_candidate(teller, pick, place, step, sink),
            None => unreachable!(),
        }
    }
}

/// Tells the candidate at a place, behind what parts it from the one before it.
fn put_candidate<K: Sink>(teller: &mut Teller, pick: u64, place: u64, step: StepName, sink: &mut K)
    ensures { TellsMore (candidate_text pick place step) teller.old teller.new
        (K.state sink.old) (K.state sink.new) }
{
    teller.put(front_of(place), sink);
    put_shown(teller, place == pick, place, step, sink);
}

/// What stands before the candidate at a place.
fn front_of(place: u64) -> &'static [u8]
    ensures { result.now ≡ front_of place }
{
    if place == 0 { b": " } else { b" | " }
}

/// Tells a candidate, in brackets where it is chosen.
fn put_shown<K: Sink>(
    teller: &mut Teller,
    is_chosen: bool,
    place: u64,
    step: StepName,
    sink: &mut K,
)
    ensures { TellsMore (shown is_chosen place step) teller.old teller.new (K.state sink.old) (K.state sink.new) }
{
    if is_chosen {
        put_chosen(teller, place, step, sink);
    } else {
        put_named(teller, place, step, sink);
    }
}

/// Tells a candidate in brackets.
fn put_chosen<K: Sink>(teller: &mut Teller, place: u64, step: StepName, sink: &mut K)
    ensures { TellsMore (shown true place step) teller.old teller.new (K.state sink.old) (K.state sink.new) }
{
    teller.put(b"[", sink);
    put_named(teller, place, step, sink);
    teller.put(b"]", sink);
}

/// Tells the place and the name of a candidate.
fn put_named<K: Sink>(teller: &mut Teller, place: u64, step: StepName, sink: &mut K)
    ensures { TellsMore (named place step) teller.old teller.new (K.state sink.old) (K.state sink.new) }
{
    teller.put_number(place, sink);
    teller.put(b" ", sink);
    put_step(teller, step, sink);
}
