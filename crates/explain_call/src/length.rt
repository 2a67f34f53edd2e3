//! A script is played, and its moves are counted.
ghost use Rattle.std.specs.Prelude.{IfOk, IsTrue};
ghost use Rattle.cam_types.specs.Script.{is_valid};
ghost use Rattle.explain_call.specs.Length.{IsPlayedLength};

use cam_types::{NoMemory, Script};
use fill_jobs::Hands;
use picture_stages::DigestMemory;
use run_model::early_bound;
use service_parts::no_job_is_out_at_first;
use settle::{Service, close, play};
use std::alloc::Global;

/// Plays a script, and answers how many moves its run has. The run is let go.
pub fn played_length(alloc: Global, script: Script) -> Result<u64, NoMemory>
    requires { IsTrue (is_valid script) }
    ensures { IfOk result (λ moves. IsPlayedLength script moves) }
{
    no_job_is_out_at_first();
    let digests = DigestMemory::with_room(alloc, early_bound(&script) as usize)?;
    let mut service = Service::open(alloc, script)?;
    let mut hands = Hands::with_memory(digests);
    play(&mut service, &mut hands);
    let moves = service.moves();
    close(service, hands);
    Ok(moves)
}
