//! What accepting a command gives.
ghost use Rattle.std.specs.Prelude.{◌≡◌, ◌+◌, ◌≤◌, ◌^◌, option_copied, option_map, option_to_list, slice_get, unwrap_or, IsTrue};
ghost use Rattle.cam_types.specs.declared.stream.StreamSpec.{StreamSpec as SomeSpec};
ghost use Rattle.cam_types.specs.Four.{four_of};
ghost use Rattle.cam_types.specs.Profile.{is_profile, pool_size};
ghost use Rattle.trace_model.specs.Reply.{made_for};
ghost use Rattle.state_facts.specs.Turns.{Turns as SomeTurns};
ghost use Rattle.state_facts.specs.Homes.{Homes as SomeHomes};
ghost use Rattle.state_facts.specs.Replies.{acceptance_in};
ghost use Rattle.client_calls.specs.Around.{IsAround};

use crate::around::Around;
use cam_types::{
    BufferId, Command, Four, Made, Profile, Reply, RequestId, Script, SpecList, StreamSpec,
};

/// The next unused number after the stream's buffers.
#[tactic(auto, using(crate::proofs::Made::pool_few))]
fn number_after(profile: Profile, next: u32, stream: Option<&StreamSpec>) -> u32
    requires profile { IsTrue (is_profile profile) }
    requires fits { next + 36 ≤ 2 ^ 32 }
    ensures value { result ≡
        next + unwrap_or (option_map (λ (s : SomeSpec). pool_size profile s.format) (option_copied stream.entry)) 0 }
    ensures few { result ≤ next + 18 }
{
    match stream {
        Some(stream) => next + profile.pool_size(stream.format),
        None => next,
    }
}

/// The buffers of the stream, from the next unused number on.
fn made_at(profile: Profile, next: u32, stream: Option<&StreamSpec>) -> Option<Made>
    requires { IsTrue (is_profile profile) }
    ensures { result ≡ slice_get (made_for profile next (option_to_list (option_copied stream.entry))) 0 }
{
    let stream = stream?;
    Some(Made {
        first: BufferId(next),
        count: profile.pool_size(stream.format),
    })
}

/// The buffers of the first four streams, numbered on from the next unused number.
fn made_for(profile: Profile, next: u32, specs: &SpecList) -> Four<Made>
    requires profile { IsTrue (is_profile profile) }
    requires numbered { next + 72 ≤ 2 ^ 32 }
    ensures { result ≡ four_of (made_for profile next specs.now) }
{
    let (first, second, third) = (specs.get(0), specs.get(1), specs.get(2));
    let after_first = number_after(profile, next, first);
    let after_second = number_after(profile, after_first, second);
    let after_third = number_after(profile, after_second, third);
    Four {
        a: made_at(profile, next, first),
        b: made_at(profile, after_first, second),
        c: made_at(profile, after_second, third),
        d: made_at(profile, after_third, specs.get(3)),
    }
}

/// The reply to a command that is accepted: the buffers of a configuration, the number of a request, or neither.
pub(crate) fn acceptance(script: &Script, around: Around, command: &Command) -> Reply
    requires profile { IsTrue (is_profile script.now.profile) }
    requires numbered { around.next_buffer + 72 ≤ 2 ^ 32 }
    ensures { (queue : SomeTurns) (homes : SomeHomes) → IsAround around queue homes →
        result ≡ acceptance_in script.now queue homes command.now }
{
    match command {
        Command::Configure(specs) => Reply::Configured(made_for(
            script.profile,
            around.next_buffer,
            specs,
        )),
        Command::Once(_) => Reply::Submitted(RequestId(around.requests)),
        Command::Burst(_) => Reply::Submitted(RequestId(around.requests)),
        Command::Repeat(_) => Reply::Submitted(RequestId(around.requests)),
        Command::Stop => Reply::Ok,
        Command::Wait => Reply::Ok,
        Command::Await(_) => Reply::Ok,
        Command::Flush => Reply::Ok,
        Command::Close => Reply::Ok,
        Command::Disconnect => Reply::Ok,
    }
}
