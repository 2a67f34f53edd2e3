//! What is wanted of a script's run, taken from its trace: the run is played, and let go.
ghost use Rattle.std.specs.Prelude.{◌≡◌, IfOk, IsTrue, reverse};
ghost use Rattle.cam_types.specs.Script.{is_valid};
ghost use Rattle.run_model.specs.History.{trace_of};
ghost use Rattle.video_call.specs.Chosen.{IsChosenOf, IsOfRun, can_draw, chosen_file};
ghost use Rattle.video_call.specs.Shows.{file_of};

use crate::wanted::Wanted;
use crate::{NoFilm, Shot, film_or_none, shot_or_none};
use cam_types::{NoMemory, Script};
use fill_jobs::Hands;
use picture_stages::DigestMemory;
use run_model::early_bound;
use service_parts::no_job_is_out_at_first;
use settle::{Service, close, play};
use std::alloc::Global;
use trace_model::Entry;

/// What there is of what was wanted.
#[derive(Drop)]
pub(crate) enum Chosen {
    /// The pictures of a film, in their order.
    Film(Vec<Shot>),
    /// A picture.
    Picture(Shot),
    /// Nothing, and why.
    Nothing(NoFilm),
}

/// What there is in a trace of what is wanted.
fn choose(
    alloc: Global,
    wanted: Wanted,
    script: &Script,
    trace: &[Entry],
) -> Result<Chosen, NoMemory>
    ensures { IfOk result (λ chosen. IsChosenOf wanted script.now (reverse trace.now) chosen) }
{
    match wanted {
        Wanted::Film { stream } => match film_or_none(alloc, script, trace, stream)? {
            Ok(shots) => Ok(Chosen::Film(shots)),
            Err(cause) => Ok(Chosen::Nothing(cause)),
        },
        Wanted::Picture { frame, stream } => {
            match shot_or_none(alloc, script, trace, frame, stream)? {
                Ok(shot) => Ok(Chosen::Picture(shot)),
                Err(cause) => Ok(Chosen::Nothing(cause)),
            }
        }
    }
}

/// What there is in a service's trace of what is wanted.
fn choose_of(alloc: Global, wanted: Wanted, service: &Service) -> Result<Chosen, NoMemory>
    ensures of { IfOk result
        (λ chosen. file_of wanted service.now.script (trace_of service.now.history) ≡ chosen_file chosen) }
    ensures drawable { IfOk result (λ chosen. IsTrue (can_draw chosen)) }
{
    service.is_a_run();
    choose(alloc, wanted, service.script(), service.trace())
}

/// Plays a script, and takes what is wanted from its trace.
pub(crate) fn played(alloc: Global, wanted: Wanted, script: Script) -> Result<Chosen, NoMemory>
    requires { IsTrue (is_valid script) }
    ensures of { IfOk result (λ chosen. IsOfRun wanted script chosen) }
    ensures drawable { IfOk result (λ chosen. IsTrue (can_draw chosen)) }
{
    no_job_is_out_at_first();
    let digests = DigestMemory::with_room(alloc, early_bound(&script) as usize)?;
    let mut service = Service::open(alloc, script)?;
    let mut hands = Hands::with_memory(digests);
    play(&mut service, &mut hands);
    let chosen = choose_of(alloc, wanted, &service);
    close(service, hands);
    chosen
}
