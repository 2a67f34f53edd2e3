//! A run is played by the script's picks, and told move by move: the candidates before it, and the line that it adds to
//! the trace.
ghost use Rattle.std.specs.Prelude.{◌≡◌, [], IfSome, IsTrue, length, option_to_list, reverse, slice_get};
ghost use Rattle.std.specs.List.{flat_map};
ghost use Rattle.run_model.specs.History.{trace_of};
ghost use Rattle.run_model.specs.Played.{IsPlayed, IsPlayedRun, pick_at};
ghost use Rattle.settle.specs.Stepping.{AnswersPick, HoldsJobs};
ghost use Rattle.trace_model.specs.Printable.{is_printable};
ghost use Rattle.trace_text.specs.Spelling.{line_of};
ghost use Rattle.run_views.specs.Told.{TellsMore, TellsMoves};

use crate::listing::put_candidates;
use crate::teller::Teller;
use fill_jobs::Hands;
use io_edge::Sink;
use service_core::Service;
use service_parts::no_job_is_out_at_rest;
use settle::{Stepped, pick_step};
use trace_model::Entry;
use trace_text::Printer;

/// Makes the steps that the picks choose until the run is complete, and tells each. It goes on where the sink has
/// failed. No job is out in the end.
pub(crate) fn tell_moves<K: Sink>(
    service: &mut Service,
    hands: &mut Hands,
    printer: &mut Printer,
    teller: &mut Teller,
    sink: &mut K,
)
    requires jobs { HoldsJobs service.old hands.old }
    requires played { IsPlayed service.old.script service.old.history }
    ensures script { service.new.script ≡ service.old.script }
    ensures played { IsPlayedRun service.new.script service.new.history }
    ensures told { TellsMoves service.old service.new teller.old teller.new (K.state sink.old) (K.state sink.new) }
    ensures jobs { HoldsJobs service.new hands.new }
    ensures none { hands.new ≡ [] }
{
    no_job_is_out_at_rest();
    while let Stepped::Done(_) = tell_move(service, hands, printer, teller, sink) {
        service.is_a_run();
    }
    service.is_a_run();
}

/// Makes the step that the script's next pick chooses, and tells it. Finished exactly where the run is complete.
fn tell_move<K: Sink>(
    service: &mut Service,
    hands: &mut Hands,
    printer: &mut Printer,
    teller: &mut Teller,
    sink: &mut K,
) -> Stepped
    requires { HoldsJobs service.old hands.old }
    ensures stepped { AnswersPick service.old (pick_at service.old.script (length service.old.history)) result
        service.new }
    ensures told { TellsMoves service.old service.new teller.old teller.new (K.state sink.old) (K.state sink.new) }
    ensures jobs { HoldsJobs service.new hands.new }
{
    if service.done() {
        return Stepped::Finished;
    }
    let entries = service.trace().len();
    put_candidates(teller, service, sink);
    match pick_step(service, hands) {
        Stepped::Done(step) => {
            service.is_a_run();
            put_entry(teller, printer, entry_at(service, entries), sink);
            Stepped::Done(step)
        }
        Stepped::Finished => unreachable!(),
    }
}

/// The entry at a place of a service's trace.
fn entry_at(service: &Service, place: usize) -> Option<Entry>
    ensures { result ≡ slice_get (reverse (trace_of service.now.history)) place }
{
    match service.trace().get(place) {
        Some(entry) => Some(*entry),
        None => None,
    }
}

/// Tells the line of an entry, if there is one.
fn put_entry<K: Sink>(
    teller: &mut Teller,
    printer: &mut Printer,
    entry: Option<Entry>,
    sink: &mut K,
)
    requires { IfSome entry (λ e. IsTrue (is_printable e)) }
    ensures { TellsMore (flat_map line_of (option_to_list entry)) teller.old teller.new
        (K.state sink.old) (K.state sink.new) }
{
    match entry {
        Some(entry) => teller.put(printer.line(entry), sink),
        None => {}
    }
}
